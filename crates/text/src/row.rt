// Rows of cards as text: `SA S5 S3`, or a dash for a row without cards.
ghost use Rattle.std.specs.Prelude.{Some};
ghost use Rattle.cards.specs.Hands.{numbers};
ghost use Rattle.text.specs.Cards.{row_text};

use crate::Shown;
use crate::each::show_each;
use cards::card::Card;
use std::fmt;

impl fmt::Display for Shown<&[Card]> {
    ghost output = { λ x. Some (row_text (numbers x.0.now)) };

    fn fmt<W: fmt::Write>(&self, f: &mut fmt::Formatter<W>) -> fmt::Result {
        match self.0 {
            [] => f.write_str("-"),
            [first, rest @ ..] => {
                f.write(Shown(*first))?;
                show_each(" ", rest, f)
            }
        }
    }
}
