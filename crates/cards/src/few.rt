// A list of few values, in memory of its own.
ghost use Rattle.std.specs.Prelude.{◌≡◌, ◌<◌, ◌≤◌, ◌↔◌, ⊤, [], ◌∷◌, ◌++◌, length, take, IsOk, OnOk, OnErr};

use std::alloc::AllocError;

// At most `N` values: the first `len` of the items.
pub struct Few<T, const N: usize> {
    pub items: [T; N],
    pub len: usize,
    ghost fits: { len ≤ N },
}

// There is no room for another value.
#[derive(Clone, Copy)]
pub struct Full;

// Written out, since no derive serves a generic struct with an invariant.
impl<T: Copy, const N: usize> Clone for Few<T, N> {
    ghost is_clone = { λ x y. y ≡ x };

    ghost is_infallible = { λ _. ⊤ };

    fn clone(&self) -> Result<Self, AllocError> {
        Ok(*self)
    }
}

impl<T: Copy, const N: usize> Copy for Few<T, N> {}

impl<T: Copy, const N: usize> Few<T, N> {
    ghost use Rattle.cards.specs.Few.{listed};

    // No values yet; a filler stands in their places.
    pub fn empty(filler: T) -> Self
        ensures { listed result ≡ [] }
    {
        Few {
            items: [filler; N],
            len: 0,
        }
    }

    // The first so many of an array's values: all of them where the count is larger, so that any count will do.
    pub fn first(items: [T; N], count: usize) -> Self
        ensures { listed result ≡ take count items }
    {
        Few {
            items,
            len: count.min(N),
        }
    }

    // How many values there are.
    pub fn len(&self) -> usize
        ensures count { result ≡ length (listed self.now) }
        ensures few { result ≤ N }
    {
        self.as_slice().len()
    }

    // The values.
    pub fn as_slice(&self) -> &[T]
        ensures { result.now ≡ listed self.now }
    {
        &self.items[..self.len]
    }

    // Puts a value at the end, if there is room.
    pub fn push(&mut self, item: T) -> Result<(), Full>
        ensures room { IsOk result ↔ (length (listed self.old) < N) }
        ensures ok { OnOk result (listed self.new ≡ listed self.old ++ item ∷ []) }
        ensures full { OnErr result (self.new ≡ self.old) }
    {
        if self.len == N {
            return Err(Full);
        }
        self.items[self.len] = item;
        self.len += 1;
        Ok(())
    }
}
