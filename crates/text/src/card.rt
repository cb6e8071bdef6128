// Suits, ranks and cards as text: `C`, `T`, `CA`.
ghost use Rattle.std.specs.Prelude.{◌≡◌, Some};
ghost use Rattle.cards.specs.Numbers.{suit_number};
ghost use Rattle.equals.specs.Covered.{card_told};
ghost use Rattle.text.specs.Cards.{suit_text, rank_text, card_text, card_or_dash};

use crate::Shown;
use cards::card::{Card, Rank, Suit};
use std::fmt;

pub(crate) fn suit_letter(suit: Suit) -> &'static str
    ensures { result.now ≡ suit_text (suit_number suit) }
{
    match suit {
        Suit::Clubs => "C",
        Suit::Diamonds => "D",
        Suit::Hearts => "H",
        Suit::Spades => "S",
    }
}

fn rank_letter(rank: Rank) -> &'static str
    ensures { result.now ≡ rank_text rank.number }
{
    match rank.number {
        0 => "2",
        1 => "3",
        2 => "4",
        3 => "5",
        4 => "6",
        5 => "7",
        6 => "8",
        7 => "9",
        8 => "T",
        9 => "J",
        10 => "Q",
        11 => "K",
        _ => "A",
    }
}

impl fmt::Display for Shown<Suit> {
    ghost output = { λ x. Some (suit_text (suit_number x.0)) };

    fn fmt<W: fmt::Write>(&self, f: &mut fmt::Formatter<W>) -> fmt::Result {
        f.write_str(suit_letter(self.0))
    }
}

impl fmt::Display for Shown<Rank> {
    ghost output = { λ x. Some (rank_text x.0.number) };

    fn fmt<W: fmt::Write>(&self, f: &mut fmt::Formatter<W>) -> fmt::Result {
        f.write_str(rank_letter(self.0))
    }
}

impl fmt::Display for Shown<Card> {
    ghost output = { λ x. Some (card_text x.0.number) };

    fn fmt<W: fmt::Write>(&self, f: &mut fmt::Formatter<W>) -> fmt::Result {
        let suit = Shown(self.0.suit());
        let rank = Shown(self.0.rank());
        write!(f, "{suit}{rank}")
    }
}

// A card, or a dash where there is none.
impl fmt::Display for Shown<Option<Card>> {
    ghost output = { λ x. Some (card_or_dash (card_told x.0)) };

    fn fmt<W: fmt::Write>(&self, f: &mut fmt::Formatter<W>) -> fmt::Result {
        match self.0 {
            Some(card) => f.write(Shown(card)),
            None => f.write_str("-"),
        }
    }
}
