// A hand: a set of cards, as the bits of a number.
ghost use Rattle.std.specs.Prelude.{◌≡◌, ℕ, ◌^◌, ◌<◌, ◌≤◌, false, not, ◌&&◌, ◌||◌, ◌==◌};
ghost use Rattle.cards.specs.Table.{deck, suit as suit_of, count, has_suit};
ghost use Rattle.cards.specs.Bits.{bit};
ghost use Rattle.cards.specs.Numbers.{suit_number};

use crate::card::{Card, Suit};

// Card c is there if bit c is.
#[derive(Clone, Copy)]
pub struct Hand {
    pub bits: u64,
    ghost low: { bits < 2 ^ deck },
}

impl Hand {
    pub fn empty() -> Hand
        ensures { (x : ℕ) → bit result.bits x ≡ false }
    {
        Hand { bits: 0 }
    }

    // How many cards it has.
    pub fn len(self) -> u8
        ensures cards { result ≡ count (bit self.bits) deck }
        ensures few { result ≤ deck }
    {
        self.bits.count_ones() as u8
    }

    pub fn holds(self, card: Card) -> bool
        ensures { result ≡ bit self.bits card.number }
    {
        (self.bits >> card.number) % 2 == 1
    }

    // The set of one card.
    fn single(card: Card) -> Hand
        ensures { (x : ℕ) → bit result.bits x ≡ (x == card.number) }
    {
        Hand {
            bits: 1 << card.number,
        }
    }

    // The cards of both.
    pub fn union(self, other: Hand) -> Hand
        ensures { (x : ℕ) → bit result.bits x ≡ (bit self.bits x || bit other.bits x) }
    {
        Hand {
            bits: self.bits | other.bits,
        }
    }

    fn minus(self, other: Hand) -> Hand
        ensures { (x : ℕ) → bit result.bits x ≡ (bit self.bits x && not (bit other.bits x)) }
    {
        Hand {
            bits: self.bits & !other.bits,
        }
    }

    pub fn with(self, card: Card) -> Hand
        ensures { (x : ℕ) → bit result.bits x ≡ (bit self.bits x || x == card.number) }
    {
        self.union(Hand::single(card))
    }

    pub fn without(self, card: Card) -> Hand
        ensures { (x : ℕ) → bit result.bits x ≡ (bit self.bits x && not (x == card.number)) }
    {
        self.minus(Hand::single(card))
    }

    // Whether it has a card, and that of a suit.
    fn holds_of(self, card: Card, suit: Suit) -> bool
        ensures { result ≡ (bit self.bits card.number && suit_of card.number == suit_number suit) }
    {
        self.holds(card) && card.is_of(suit)
    }

    // Whether it has a card of a suit, looked up card by card. By a loop: the closure of an `any` would need a clause of its own, that its number is a card's.
    pub fn has_suit(self, suit: Suit) -> bool
        ensures { result ≡ has_suit (bit self.bits) (suit_number suit) deck }
    {
        for number in 0..52 {
            if self.holds_of(Card { number }, suit) {
                return true;
            }
        }
        false
    }
}
