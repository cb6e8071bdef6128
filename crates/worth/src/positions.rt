// The positions that a search keeps, each with its worth: the key of a position, its slot, and reading and writing there.
ghost use Rattle.std.specs.Prelude.{◌≡◌, ℕ, ◌+◌, ◌*◌, ◌/◌, ◌%◌, ◌^◌, ◌<◌, min, ◌||◌, length, replicate, slice_set, IfSome, ◌==◌};
ghost use Rattle.cards.specs.Table.{deck};
ghost use Rattle.cards.specs.Bits.{bit};
ghost use Rattle.cards.specs.Seen.{seen};
ghost use Rattle.worth.specs.Value.{worth_of};
ghost use Rattle.worth.specs.Positions.{held, Key, Under, True, true_prop};

use cards::board::Board;
use cards::hand::Hand;
use cards::player::Player;

// The slots to lend for hands of so many cards. Past eight cards a hand there are no more of them.
pub fn slots(cards: u8) -> usize
    ensures { result ≡ 2 ^ (2 * min cards 8 + 4) }
{
    1 << (2 * cards.min(8) + 4)
}

// The cards of four hands, in pairs, as `held` has them; so not by a union of any number.
fn all_of(a: Hand, b: Hand, c: Hand, d: Hand) -> Hand
    ensures { (x : ℕ) → bit result.bits x ≡ ((bit a.bits x || bit b.bits x) || (bit c.bits x || bit d.bits x)) }
{
    a.union(b).union(c.union(d))
}

// The cards still in a hand.
fn cards_held(board: &Board) -> Hand
    ensures { (x : ℕ) → bit result.bits x ≡ held (seen board.now) x }
{
    let [a, b, c, d] = board.hands;
    all_of(a, b, c, d)
}

// Cards and a leader as one number.
fn key_of(cards: Hand, leader: Player) -> u64
    ensures cards { result % 2 ^ deck ≡ cards.bits }
    ensures leads { result / 2 ^ deck ≡ leader.seat }
{
    cards.bits + leader.seat as u64 * (1 << 52)
}

// The key of a position. Who holds which card is known from the deal at the root.
fn key(board: &Board) -> u64
    ensures { Key (seen board.now) result }
{
    key_of(cards_held(board), board.leader)
}

// The slot of a key, spread by a product with an odd number near 2^64 over the golden ratio.
fn slot(key: u64, slots: usize) -> usize
    requires { 0 < slots }
    ensures { result < slots }
{
    ((key.wrapping_mul(0x9e37_79b9_7f4a_7c15) >> 32) % slots as u64) as usize
}

// Whether no card lies on the table.
fn starts_trick(board: &Board) -> bool
    ensures { result ≡ (board.now.played == 0) }
{
    board.played == 0
}

// Puts a key and a worth in a slot, in place of what was there; both in one call, since between the two writes the slot need not be true.
fn put(keys: &mut [u64], worths: &mut [u8], slot: usize, key: u64, worth: u8)
    requires some { slot < length keys.old }
    requires same { length keys.old ≡ length worths.old }
    ensures keys { keys.new ≡ slice_set keys.old slot key }
    ensures worths { worths.new ≡ slice_set worths.old slot worth }
{
    keys[slot] = key;
    worths[slot] = worth;
}

// Empties every slot, for a search from a root.
pub fn clear(root: &Board, keys: &mut [u64], worths: &mut [u8])
    ensures keys { keys.new ≡ replicate (length keys.old) 0 }
    ensures worths { worths.new ≡ replicate (length worths.old) 0 }
    ensures kept { True (seen root.now) keys.new worths.new }
{
    keys.fill(0);
    worths.fill(0);
}

// The positions that a search from a root keeps: those at the start of a trick, each with its worth, in two lent slices, one slot each.
// Its invariant says that there are slots and that what they keep is true, so no literal and no write can make one that is not.
// Two slices side by side, since callers lend them so. That a board came of the root is a fact about both, and that a search keeps
// root and slices is one of before and after; each stays a clause of each function. Callers make it by a literal after `prepare`:
// a constructor would have to say of both lent slices what they hold where it refuses.
#[derive(Drop)]
pub struct Positions<'a> {
    pub root: Board,
    pub keys: &'a mut [u64],
    pub worths: &'a mut [u8],
    ghost some: { 0 < length keys.now },
    ghost same: { length keys.now ≡ length worths.now },
    ghost kept: { True (seen root) keys.now worths.now } by { true_prop (seen root) keys.now worths.now },
}

impl Positions<'_> {
    ghost use Rattle.worth.specs.Lent.{SameSlots};

    // The worth of a position, if its slot has it.
    pub(crate) fn look_up(&self, board: &Board) -> Option<u8>
        requires { Under (seen self.now.root) (seen board.now) }
        ensures { IfSome result (λ w. w ≡ worth_of (seen board.now)) }
    {
        if !starts_trick(board) {
            return None;
        }
        let key = key(board);
        let slot = slot(key, self.keys.len());
        if self.keys[slot] == key {
            Some(self.worths[slot])
        } else {
            None
        }
    }

    // Keeps the worth of a position in its slot, in place of what was there.
    pub(crate) fn store(&mut self, board: &Board, worth: u8)
        requires worth { worth ≡ worth_of (seen board.now) }
        requires under { Under (seen self.old.root) (seen board.now) }
        ensures { SameSlots self.old self.new }
    {
        if starts_trick(board) {
            let key = key(board);
            let slot = slot(key, self.keys.len());
            put(self.keys, self.worths, slot, key, worth);
        }
    }
}
