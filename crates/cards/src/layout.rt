// Where the parts of a deal stand in its bytes.
ghost use Rattle.std.specs.Prelude.{◌≡◌, ℕ, ◌+◌, ◌-◌, ◌%◌, ◌^◌, ◌<◌, ◌≤◌, slice_index};
ghost use Rattle.cards.specs.Deal.{byte, start_of, most_cards, share};

use crate::player::Player;
use crate::reader::byte_at;

// The bytes of a deal, who leads, and the places of its hands.
#[derive(Clone, Copy)]
pub(crate) struct Layout<'a> {
    pub(crate) bytes: &'a [u8],
    pub(crate) leader: Player,
    // the places of the four number bytes
    pub(crate) starts: [usize; 4],
    // the place after the deal
    pub(crate) end: usize,
    ghost leads: { leader.seat ≡ byte bytes.now 1 },
    ghost placed: { (p : ℕ) → p < 4 → slice_index starts p ≡ start_of bytes.now p },
    ghost ends: { end ≡ start_of bytes.now 4 },
}

// The place after a hand that begins with its number byte.
fn after_hand(bytes: &[u8], start: usize) -> usize
    requires { start < 2 ^ 32 }
    ensures place { result ≡ (start + 1) + byte bytes.now start }
    ensures near { result ≤ start + 256 }
{
    start + 1 + byte_at(bytes, start) as usize
}

// How many seats after the leader a player sits.
fn seats_after(leader: Player, player: Player) -> u8
    ensures { result ≡ ((player.seat + 4) - leader.seat) % 4 }
{
    (player.seat + 4 - leader.seat) % 4
}

impl<'a> Layout<'a> {
    pub(crate) fn of(bytes: &'a [u8], leader: Player) -> Layout<'a>
        requires { leader.seat ≡ byte bytes.now 1 }
        ensures { result.bytes.now ≡ bytes.now }
    {
        let first = 3 + byte_at(bytes, 2) as usize;
        let second = after_hand(bytes, first);
        let third = after_hand(bytes, second);
        let fourth = after_hand(bytes, third);
        let end = after_hand(bytes, fourth);
        Layout {
            bytes,
            leader,
            starts: [first, second, third, fourth],
            end,
        }
    }

    // The largest number byte.
    pub(crate) fn most_cards(&self) -> u8
        ensures { result ≡ most_cards self.now.bytes.now }
    {
        let mut most = 0u8;
        for start in self.starts {
            most = most.max(byte_at(self.bytes, start));
        }
        most
    }

    // A player's cards, with its card in the trick.
    pub(crate) fn share(&self, player: Player) -> usize
        ensures { result ≡ share self.now.bytes.now player.seat }
    {
        let cards = byte_at(self.bytes, self.starts[player.seat as usize]) as usize;
        if seats_after(self.leader, player) < byte_at(self.bytes, 2) {
            cards + 1
        } else {
            cards
        }
    }
}
