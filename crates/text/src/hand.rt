// Hands as text: a row of their cards, from the ace of spades down to the two of clubs.
ghost use Rattle.std.specs.Prelude.{◌≡◌, Some};
ghost use Rattle.cards.specs.Table.{deck};
ghost use Rattle.cards.specs.Bits.{bit};
ghost use Rattle.cards.specs.Few.{listed};
ghost use Rattle.cards.specs.Hands.{numbers};
ghost use Rattle.text.specs.Cards.{cards_below, hand_text};

use crate::Shown;
use cards::card::Card;
use cards::few::Few;
use cards::hand::Hand;
use std::fmt;

// The cards of a hand, the highest first.
fn row_of(hand: Hand) -> Few<Card, 52>
    ensures { numbers (listed result) ≡ cards_below (bit hand.bits) deck }
{
    let mut row = Few::empty(Card { number: 0 });
    for number in (0..52u8).rev() {
        let card = Card { number };
        if hand.holds(card) {
            row.push(card).unwrap();
        }
    }
    row
}

impl fmt::Display for Shown<Hand> {
    ghost output = { λ x. Some (hand_text (bit x.0.bits)) };

    fn fmt<W: fmt::Write>(&self, f: &mut fmt::Formatter<W>) -> fmt::Result {
        let row = row_of(self.0);
        f.write(Shown(row.as_slice()))
    }
}
