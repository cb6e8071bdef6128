// Refusals as text: `refused 8 at 2`.
ghost use Rattle.std.specs.Prelude.{Some};
ghost use Rattle.cards.specs.Refusals.{number_of, place_of};
ghost use Rattle.text.specs.Refusals.{refusal_text};

use crate::Shown;
use cards::refusal::Refusal;
use std::fmt;

impl fmt::Display for Shown<Refusal> {
    ghost output = { λ x. Some (refusal_text (number_of x.0) (place_of x.0)) };

    fn fmt<W: fmt::Write>(&self, f: &mut fmt::Formatter<W>) -> fmt::Result {
        let number = self.0.number();
        let place = self.0.place();
        write!(f, "refused {number} at {place}")
    }
}
