// Of the cards that are as good as each other, the lowest.
ghost use Rattle.std.specs.Prelude.{◌≡◌, ℕ, not, ◌&&◌, ◌==◌, nat_lt};
ghost use Rattle.cards.specs.Table.{deck};
ghost use Rattle.cards.specs.Bits.{bit};
ghost use Rattle.cards.specs.Seen.{seen};
ghost use Rattle.equals.specs.Lowest.{lowest};
ghost use Rattle.equals.specs.Covered.{top, lower as lower_of, card_told, covered};
ghost use Rattle.equals.specs.Serves.{Serves};

use crate::in_play::InPlay;
use cards::board::Board;
use cards::card::Card;
use cards::hand::Hand;
use tricks::legal::{cards_of, playable};

// The highest card of a set, if it has any.
fn highest(cards: Hand) -> Option<Card>
    ensures { card_told result ≡ top (bit cards.bits) deck }
{
    if cards.bits == 0 {
        return None;
    }
    Some(Card {
        number: 63 - cards.bits.leading_zeros() as u8,
    })
}

// The cards of a set below a card, of any suit.
fn below(cards: Hand, card: Card) -> Hand
    ensures { (x : ℕ) → bit result.bits x ≡ (bit cards.bits x && nat_lt x card.number) }
{
    Hand {
        bits: cards.bits % (1 << card.number),
    }
}

// The cards of a set of a card's suit, and lower than it.
fn lower(cards: Hand, card: Card) -> Hand
    ensures { (x : ℕ) → bit result.bits x ≡ lower_of (bit cards.bits) card.number x }
{
    below(cards_of(cards, card.suit()), card)
}

// The next lower card of a set, of the same suit.
fn next_lower(cards: Hand, card: Card) -> Option<Card>
    ensures { card_told result ≡ top (lower_of (bit cards.bits) card.number) deck }
{
    highest(lower(cards, card))
}

impl InPlay {
    // Whether the next lower card in play is an own one, and so as good: those between are gone.
    fn covers(self, card: Card) -> bool
        ensures { result ≡ covered (bit self.own.bits) (bit self.all.bits) card.number }
    {
        next_lower(self.all, card).is_some_and(|next| self.own.holds(next))
    }

    // Whether a card is in a set, and not covered; asked of one card alone, without going through the others.
    fn leaves(self, cards: Hand, card: Card) -> bool
        ensures { result ≡ (bit cards.bits card.number && not (covered (bit self.own.bits) (bit self.all.bits) card.number)) }
    {
        cards.holds(card) && !self.covers(card)
    }

    // A set with a card no more that is covered: of the two, the lower stays.
    fn without_covered(self, cards: Hand, card: Card) -> Hand
        ensures { (x : ℕ) → bit result.bits x ≡ (bit cards.bits x && not (x == card.number && covered (bit self.own.bits) (bit self.all.bits) card.number)) }
    {
        if self.covers(card) {
            return cards.without(card);
        }
        cards
    }

    // The cards of a set that are not covered, looked up one by one.
    fn uncovered(self, cards: Hand) -> Hand
        ensures { (x : ℕ) → bit result.bits x ≡ (bit cards.bits x && not (covered (bit self.own.bits) (bit self.all.bits) x)) }
    {
        let mut left = cards;
        let mut found = cards;
        while let Some(card) = highest(left) {
            left = left.without(card);
            found = self.without_covered(found, card);
        }
        found
    }
}

// The cards that a search has to try: of those that may be played and are as good as each other, the lowest.
pub fn lowest_equals(board: &Board) -> Hand
    ensures set { (x : ℕ) → bit result.bits x ≡ lowest (seen board.now) x }
    ensures serves { Serves (seen board.now) (bit result.bits) }
{
    InPlay::on(board).uncovered(playable(board))
}

// Whether a card may be played, and no lower one that may be is as good.
pub fn is_lowest(board: &Board, card: Card) -> bool
    ensures { result ≡ lowest (seen board.now) card.number }
{
    InPlay::on(board).leaves(playable(board), card)
}
