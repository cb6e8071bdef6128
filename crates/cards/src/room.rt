// The memory that a caller has for a deal.
ghost use Rattle.std.specs.Prelude.{◌≡◌};
ghost use Rattle.cards.specs.Deal.{lacks};
ghost use Rattle.cards.specs.Parts.{short};

use crate::refusal::Lent;

#[derive(Clone, Copy)]
pub struct Room {
    // the most cards in a hand
    pub cards: u8,
    // places for plays
    pub plays: usize,
    // the lengths of the two slices for positions and their worths
    pub positions: usize,
    pub worths: usize,
}

impl Room {
    // Whether it suffices for hands of so many cards, or what of it is too short.
    pub(crate) fn suffices(self, cards: u8) -> Result<(), Lent>
        ensures { short result ≡ lacks self cards }
    {
        if cards > self.cards {
            return Err(Lent::Hands);
        }
        if 4 * cards as usize > self.plays {
            return Err(Lent::Plays);
        }
        if self.positions == 0 || self.positions != self.worths {
            return Err(Lent::Positions);
        }
        Ok(())
    }
}
