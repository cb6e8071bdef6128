// Who takes a trick.
ghost use Rattle.std.specs.Prelude.{◌≡◌, ℕ, ◌+◌, ◌%◌, length, drop, ◌==◌, slice_index};
ghost use Rattle.cards.specs.Table.{suit as suit_of};
ghost use Rattle.cards.specs.Hands.{numbers};
ghost use Rattle.cards.specs.Numbers.{trump_number};
ghost use Rattle.cards.specs.Seen.{seen};
ghost use Rattle.tricks.specs.Rules.{beats, best as best_of};
ghost use Rattle.tricks.specs.Taken.{taker_of, taken_by};

use crate::turn::cards_on_table;
use cards::board::Board;
use cards::card::{Card, Trump};
use cards::player::Player;

fn is_trump(trump: Trump, card: Card) -> bool
    ensures { result ≡ (suit_of card.number == trump_number trump) }
{
    trump == Trump::Of(card.suit())
}

// Whether a card beats the best so far: it is of its suit and higher, or a trump on a card that is none.
fn is_better(trump: Trump, best: Card, card: Card) -> bool
    ensures { (led : ℕ) → result ≡ beats (trump_number trump) led best.number card.number }
{
    card.is_of(best.suit()) && best.rank() < card.rank()
        || !is_trump(trump, best) && is_trump(trump, card)
}

// The place of the best of four cards.
fn best_place(trump: Trump, cards: [Card; 4]) -> u8
    ensures { result ≡ best_of (trump_number trump) (suit_of (slice_index (numbers cards) 0)) (slice_index (numbers cards) 0) 0 1 (drop 1 (numbers cards)) }
{
    let mut best = 0;
    for (place, card) in cards.iter().enumerate() {
        if is_better(trump, cards[best], *card) {
            best = place;
        }
    }
    best as u8
}

// Who takes a trick of four cards.
fn trick_taker(trump: Trump, leader: Player, cards: [Card; 4]) -> Player
    ensures { result.seat ≡ (leader.seat + best_of (trump_number trump) (suit_of (slice_index (numbers cards) 0)) (slice_index (numbers cards) 0) 0 1 (drop 1 (numbers cards))) % 4 }
{
    leader.ahead(best_place(trump, cards))
}

// Whether the next card is the fourth.
fn ends_trick(board: &Board) -> bool
    ensures { result ≡ (length (seen board.now).trick == 3) }
{
    cards_on_table(board) == 3
}

// Who takes the trick that a card ends; none where it ends none.
pub fn taker(board: &Board, card: Card) -> Option<Player>
    ensures { taker_of result ≡ taken_by (seen board.now) card.number }
{
    if !ends_trick(board) {
        return None;
    }
    let [first, second, third] = board.trick;
    Some(trick_taker(board.trump, board.leader, [first, second, third, card]))
}
