// The table after a card.
ghost use Rattle.std.specs.Prelude.{◌≡◌, ℕ, ◌+◌, ◌%◌, ◌<◌, true, false, not, ◌&&◌, [], ◌∷◌, ◌++◌, take, MatchOption, ◌==◌};
ghost use Rattle.cards.specs.Table.{pick};
ghost use Rattle.cards.specs.Bits.{bit};
ghost use Rattle.cards.specs.Hands.{held, numbers};
ghost use Rattle.cards.specs.Seen.{seen};
ghost use Rattle.tricks.specs.Rules.{may, after};
ghost use Rattle.tricks.specs.Taken.{taker_of, taken_by, gain_of, next_of};
ghost use Rattle.tricks.specs.Moves.{After};

use crate::legal::may_play;
use crate::taker::taker;
use crate::turn::{cards_on_table, hand_of, turn};
use cards::board::Board;
use cards::card::Card;
use cards::hand::Hand;
use cards::player::{Player, Side};

// The table after a card, and who took the trick that it ended.
#[derive(Clone, Copy)]
pub struct Played {
    pub board: Board,
    pub taker: Option<Player>,
}

impl Played {
    // The tricks that our side took by the card: one or none. Not a case of a function for both sides, with which the search took a tenth longer.
    pub fn gain(self) -> u8
        ensures { result ≡ gain_of (taker_of self.taker) }
    {
        self.taker.map_or(0, |player| match player.side() {
            Side::Ours => 1,
            Side::Others => 0,
        })
    }
}

// The hands, with another for a player.
#[tactic(auto, using(crate::proofs::BoardLaws::hands_set))]
fn hands_with(hands: [Hand; 4], player: Player, hand: Hand) -> [Hand; 4]
    ensures { (p x : ℕ) → held result p x ≡ pick (p == player.seat) (bit hand.bits x) (held hands p x) }
{
    let mut others = hands;
    others[player.seat as usize] = hand;
    others
}

// The hands, of which a player has one card no more.
fn hands_without(hands: [Hand; 4], player: Player, card: Card) -> [Hand; 4]
    ensures { (p x : ℕ) → held result p x ≡ (held hands p x && not (p == player.seat && x == card.number)) }
{
    hands_with(hands, player, hand_of(hands, player).without(card))
}

// Who takes a trick leads to the next.
fn next_leader(leader: Player, taker: Option<Player>) -> Player
    ensures { result.seat ≡ next_of (taker_of taker) leader.seat }
{
    taker.unwrap_or(leader)
}

// The trick with a card more; a fourth has no place, since it ends the trick.
#[tactic(auto, using(crate::proofs::BoardLaws::trick_more))]
fn trick_with(trick: [Card; 3], played: u8, card: Card) -> [Card; 3]
    ensures { played < 3 → take (played + 1) (numbers result) ≡ take played (numbers trick) ++ (card.number ∷ []) }
{
    let mut longer = trick;
    if played < 3 {
        longer[played as usize] = card;
    }
    longer
}

// The cards on the table after one more: the fourth clears it.
fn played_after(played: u8) -> u8
    ensures { result ≡ (played + 1) % 4 }
{
    (played % 4 + 1) % 4
}

// The table after a card that may be played, which ends a trick that `taker` takes, or ends none.
fn board_after(board: &Board, card: Card, taker: Option<Player>) -> Board
    requires legal { may (seen board.now) card.number ≡ true }
    requires taker { taker_of taker ≡ taken_by (seen board.now) card.number }
    ensures { seen result ≡ after (seen board.now) card.number }
{
    let hands = hands_without(board.hands, turn(board), card);
    let lying = cards_on_table(board);
    let trick = trick_with(board.trick, lying, card);
    Board {
        trump: board.trump,
        hands,
        leader: next_leader(board.leader, taker),
        trick,
        played: played_after(lying),
    }
}

// What comes of a card that may be played. For a search, which knows that it may; others call `play`.
pub fn played_lawfully(board: &Board, card: Card) -> Played
    requires { may (seen board.now) card.number ≡ true }
    ensures { After board.now card.number result }
{
    let taker = taker(board, card);
    let board = board_after(board, card, taker);
    Played { board, taker }
}

// Plays a card, if it may be played.
pub fn play(board: &Board, card: Card) -> Option<Played>
    ensures { MatchOption result (may (seen board.now) card.number ≡ false) (λ p. After board.now card.number p) }
{
    if !may_play(board, card) {
        return None;
    }
    Some(played_lawfully(board, card))
}
