// What may be played.
ghost use Rattle.std.specs.Prelude.{◌≡◌, ℕ, ◌*◌, ◌^◌, ◌&&◌, ◌==◌};
ghost use Rattle.cards.specs.Table.{suit as suit_of};
ghost use Rattle.cards.specs.Bits.{bit};
ghost use Rattle.cards.specs.Numbers.{suit_number};
ghost use Rattle.cards.specs.Seen.{seen};
ghost use Rattle.tricks.specs.Rules.{may};
ghost use Rattle.tricks.specs.Led.{suit_told, led_suit, goes};

use crate::turn::{current_trick, hand_to_play};
use cards::board::Board;
use cards::card::{Card, Suit};
use cards::hand::Hand;

// The suit led, if any is.
fn led(board: &Board) -> Option<Suit>
    ensures { suit_told result ≡ led_suit (seen board.now).trick }
{
    current_trick(board).first().map(|card| card.suit())
}

// Whether a card of a hand goes on a trick: it is of the suit led, or the hand has none of that. Told of one card without those of all, as it is asked often.
fn is_playable(hand: Hand, led: Option<Suit>, card: Card) -> bool
    ensures { result ≡ (bit hand.bits card.number && goes (bit hand.bits) (suit_told led) card.number) }
{
    hand.holds(card) && led.is_none_or(|suit| card.is_of(suit) || !hand.has_suit(suit))
}

pub fn may_play(board: &Board, card: Card) -> bool
    ensures { result ≡ may (seen board.now) card.number }
{
    is_playable(hand_to_play(board), led(board), card)
}

// The thirteen bits of a suit. Suit by suit: with a shift by 13 times its number the search took a quarter longer, above the bar that this meets.
fn suit_mask(suit: Suit) -> u64
    ensures { result ≡ 8191 * 2 ^ (13 * suit_number suit) }
{
    match suit {
        Suit::Clubs => 0x1fff,
        Suit::Diamonds => 0x1fff << 13,
        Suit::Hearts => 0x1fff << 26,
        Suit::Spades => 0x1fff << 39,
    }
}

// The cards of a suit.
#[tactic(auto, using(crate::proofs::MaskLaws::bit_suit))]
pub fn cards_of(hand: Hand, suit: Suit) -> Hand
    ensures { (x : ℕ) → bit result.bits x ≡ (bit hand.bits x && suit_of x == suit_number suit) }
{
    Hand {
        bits: hand.bits & suit_mask(suit),
    }
}

// The cards of a hand that go on a trick: those of the suit led, or all if it has none of that.
fn playable_of(hand: Hand, led: Option<Suit>) -> Hand
    ensures { (x : ℕ) → bit result.bits x ≡ (bit hand.bits x && goes (bit hand.bits) (suit_told led) x) }
{
    match led {
        Some(suit) if hand.has_suit(suit) => cards_of(hand, suit),
        _ => hand,
    }
}

// The cards that may be played.
pub fn playable(board: &Board) -> Hand
    ensures { (x : ℕ) → bit result.bits x ≡ may (seen board.now) x }
{
    playable_of(hand_to_play(board), led(board))
}
