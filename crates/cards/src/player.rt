// The four players and the two sides.
ghost use Rattle.std.specs.Prelude.{◌≡◌, ◌+◌, ◌%◌, ◌<◌, ◌≤◌, MatchResult};
ghost use Rattle.cards.specs.Numbers.{side_number};

use crate::card::OutOfRange;

// They sit round, from 0 to 3.
#[derive(Clone, Copy)]
pub struct Player {
    pub seat: u8,
    ghost low: { seat < 4 },
}

// Ours is players 0 and 2, the others are 1 and 3.
#[derive(Clone, Copy, PartialEq, Eq)]
pub enum Side {
    Ours,
    Others,
}

// As of a card: one text for both would take a macro.
impl TryFrom<u8> for Player {
    type Error = OutOfRange;

    ghost try_from_gives = { λ seat r. MatchResult r (λ p. p.seat ≡ seat) (λ _. 4 ≤ seat) };

    fn try_from(seat: u8) -> Result<Self, OutOfRange> {
        if seat < 4 {
            Ok(Player { seat })
        } else {
            Err(OutOfRange)
        }
    }
}

// 0 for ours, 1 for the others.
impl TryFrom<u8> for Side {
    type Error = OutOfRange;

    ghost try_from_gives = { λ number r. MatchResult r (λ s. side_number s ≡ number) (λ _. 1 < number) };

    fn try_from(number: u8) -> Result<Self, OutOfRange> {
        match number {
            0 => Ok(Side::Ours),
            1 => Ok(Side::Others),
            _ => Err(OutOfRange),
        }
    }
}

impl Player {
    // Who sits so many seats further round.
    pub fn ahead(self, seats: u8) -> Player
        ensures { result.seat ≡ (self.seat + seats) % 4 }
    {
        Player {
            seat: (self.seat + seats % 4) % 4,
        }
    }

    pub fn side(self) -> Side
        ensures { side_number result ≡ self.seat % 2 }
    {
        if self.seat % 2 == 0 {
            Side::Ours
        } else {
            Side::Others
        }
    }
}
