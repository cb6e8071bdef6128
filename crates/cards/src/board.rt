// The running table. Its invariant says that it is in order, so no literal and no write can make one that is not.
ghost use Rattle.std.specs.Prelude.{◌≡◌, ◌<◌, length};
ghost use Rattle.cards.specs.Hands.{Kept};

use crate::card::{Card, Trump};
use crate::hand::Hand;
use crate::player::Player;

#[derive(Clone, Copy)]
pub struct Board {
    pub trump: Trump,
    // of players 0 to 3; that a table is one value with arrays for the hands and the trick is settled
    pub hands: [Hand; 4],
    pub leader: Player,
    // the first `played` of these lie on the table, from the leader on
    pub trick: [Card; 3],
    pub played: u8,
    ghost seats: { length hands ≡ 4 },
    ghost places: { length trick ≡ 3 },
    ghost short: { played < 4 },
    ghost order: { Kept trump hands leader trick played },
}
