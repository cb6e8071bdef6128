// The cards in play.
ghost use Rattle.std.specs.Prelude.{◌≡◌, ℕ, ◌||◌, slice_index};
ghost use Rattle.cards.specs.Bits.{bit};
ghost use Rattle.cards.specs.Hands.{bits_of, held};
ghost use Rattle.cards.specs.Seen.{seen};
ghost use Rattle.tricks.specs.Rules.{turn as turn_of};
ghost use Rattle.equals.specs.Equals.{on};
ghost use Rattle.equals.specs.Covered.{of_others, seen_in_play};

use cards::board::Board;
use cards::hand::Hand;
use cards::player::Player;
use tricks::turn::{current_trick, hand_of, hand_to_play, turn};

// The cards that lie on the table.
fn on_table(board: &Board) -> Hand
    ensures { (x : ℕ) → bit result.bits x ≡ on x (seen board.now).trick }
{
    let mut lying = Hand::empty();
    for card in current_trick(board) {
        lying = lying.with(*card);
    }
    lying
}

// The cards of the three others: both opponents and the partner. A union of its own, as the next but one is: each is bracketed as its definition, and has an edit.
fn all_three(next: Hand, partner: Hand, last: Hand) -> Hand
    ensures { (x : ℕ) → bit result.bits x ≡ (bit next.bits x || (bit partner.bits x || bit last.bits x)) }
{
    next.union(partner.union(last))
}

// The cards of those who sit one, two and three seats ahead.
fn cards_of_others(hands: [Hand; 4], player: Player) -> Hand
    ensures { (x : ℕ) → bit result.bits x ≡ of_others (held hands) player.seat x }
{
    let next = hand_of(hands, player.ahead(1));
    let partner = hand_of(hands, player.ahead(2));
    let last = hand_of(hands, player.ahead(3));
    all_three(next, partner, last)
}

// What the player to play has, what the others have, and what lies on the table.
fn held_or_lying(own: Hand, others: Hand, lying: Hand) -> Hand
    ensures { (x : ℕ) → bit result.bits x ≡ ((bit own.bits x || bit others.bits x) || bit lying.bits x) }
{
    own.union(others).union(lying)
}

// The cards in play, as the player to play sees them: those that are held or lie on the table, and so not those of finished tricks.
// What it says of covered cards is in `lowest`.
#[derive(Clone, Copy)]
pub(crate) struct InPlay {
    // of these, what it holds itself
    pub(crate) own: Hand,
    pub(crate) all: Hand,
}

impl InPlay {
    pub(crate) fn on(board: &Board) -> InPlay
        ensures own { result.own.bits ≡ slice_index (bits_of board.now.hands) (turn_of (seen board.now)) }
        ensures all { (x : ℕ) → bit result.all.bits x ≡ seen_in_play (seen board.now) x }
    {
        let own = hand_to_play(board);
        let others = cards_of_others(board.hands, turn(board));
        let all = held_or_lying(own, others, on_table(board));
        InPlay { own, all }
    }
}
