// The search: the worth of a table by trying the cards, to the last.
ghost use Rattle.std.specs.Prelude.{◌≡◌, ℕ, ◌+◌, ◌*◌, ◌<◌, ◌≤◌, true, false, MatchOption, ◌==◌};
ghost use Rattle.cards.specs.Bits.{bit};
ghost use Rattle.cards.specs.Numbers.{side_number};
ghost use Rattle.cards.specs.Seen.{seen, tricks_left};
ghost use Rattle.tricks.specs.Rules.{our_turn, may};
ghost use Rattle.tricks.specs.Taken.{taker_of};
ghost use Rattle.tricks.specs.Moves.{After};
ghost use Rattle.worth.specs.Value.{worth_of};
ghost use Rattle.worth.specs.Positions.{Under};
ghost use Rattle.worth.specs.Lent.{SameSlots};
ghost use Rattle.worth.specs.Search.{Enough, left_with, clamp};

use crate::positions::Positions;
use crate::window::Window;
use cards::board::Board;
use cards::card::Card;
use cards::hand::Hand;
use cards::player::{Player, Side};
use equals::lowest::lowest_equals;
use tricks::play::{Played, played_lawfully};
use tricks::turn::{tricks_left, turn};

// The side that is to play.
fn side_to_play(board: &Board) -> Side
    ensures { (side_number result == 0) ≡ our_turn (seen board.now) }
{
    turn(board).side()
}

// The cards to look at: of cards that are as good as each other the lowest.
fn candidates(board: &Board) -> Hand
    ensures { Enough (seen board.now) (tricks_left board.now) (bit result.bits) }
{
    lowest_equals(board)
}

// The card of a suit and a rank by their numbers: the loops count these down, and the invariant says by them which cards were tried.
fn card_of(suit: u8, rank: u8) -> Card
    requires suit { suit < 4 }
    requires rank { rank < 13 }
    ensures { result.number ≡ 13 * suit + rank }
{
    Card {
        number: 13 * suit + rank,
    }
}

// What comes of a card, if it is one of those that are looked at. By `if`: with `bool::then` the search took twice as long.
fn played_of(cards: Hand, board: &Board, card: Card) -> Option<Played>
    requires { (x : ℕ) → bit cards.bits x ≡ true → may (seen board.now) x ≡ true }
    ensures { MatchOption result (bit cards.bits card.number ≡ false) (λ p. (bit cards.bits card.number ≡ true) × After board.now card.number p) }
{
    if cards.holds(card) {
        Some(played_lawfully(board, card))
    } else {
        None
    }
}

// The tricks left once a card was played.
fn left_with(taker: Option<Player>, left: u8) -> u8
    requires { 0 < left }
    ensures { result ≡ left_with (taker_of taker) left }
{
    if taker.is_some() { left - 1 } else { left }
}

// The worth of a board with so many tricks left, which came of the root, or the nearest to it within the window.
fn search(board: Board, left: u8, window: Window, positions: &mut Positions<'_>) -> u8
    requires left { left ≡ tricks_left board }
    requires most { window.high ≤ left }
    requires under { Under (seen positions.old.root) (seen board) }
    ensures worth { result ≡ clamp window.low window.high (worth_of (seen board)) }
    ensures same { SameSlots positions.old positions.new }
{
    if window.is_closed() {
        return window.low;
    }
    if let Some(worth) = positions.look_up(&board) {
        return window.nearest(worth);
    }
    let side = side_to_play(&board);
    let cards = candidates(&board);
    let mut open = window;
    // suits and cards in two loops, left by a label, as is settled; the highest first
    'suits: for suit in (0..4u8).rev() {
        for rank in (0..13u8).rev() {
            if let Some(played) = played_of(cards, &board, card_of(suit, rank)) {
                let gain = played.gain();
                let rest = left_with(played.taker, left);
                let next = open.after(gain, rest);
                let worth = gain + search(played.board, rest, next, positions);
                open = open.narrowed(side, worth);
                if open.is_closed() {
                    break 'suits;
                }
            }
        }
    }
    let worth = open.reached(side);
    if window.is_exact(left, worth) {
        positions.store(&board, worth);
    }
    worth
}

// The worth of a board that came of the root of the positions that are kept.
pub fn worth_under(board: &Board, positions: &mut Positions<'_>) -> u8
    requires { Under (seen positions.old.root) (seen board.now) }
    ensures worth { result ≡ worth_of (seen board.now) }
    ensures same { SameSlots positions.old positions.new }
{
    let left = tricks_left(board);
    let window = Window { low: 0, high: left };
    search(*board, left, window, positions)
}
