// Whose turn it is.
ghost use Rattle.std.specs.Prelude.{◌≡◌, length, slice_index};
ghost use Rattle.cards.specs.Hands.{bits_of, numbers};
ghost use Rattle.cards.specs.Seen.{seen, tricks_left};
ghost use Rattle.tricks.specs.Rules.{turn as turn_of};

use cards::board::Board;
use cards::card::Card;
use cards::hand::Hand;
use cards::player::Player;

// The cards that lie on the table, from the leader's on.
#[tactic(auto, using(crate::proofs::BoardLaws::numbers_first))]
pub fn current_trick(board: &Board) -> &[Card]
    ensures { numbers result.now ≡ (seen board.now).trick }
{
    &board.trick[..board.played as usize]
}

// How many cards lie on the table.
pub(crate) fn cards_on_table(board: &Board) -> u8
    ensures cards { result ≡ length (seen board.now).trick }
    ensures played { result ≡ board.now.played }
{
    board.played
}

// The player to play.
pub fn turn(board: &Board) -> Player
    ensures { result.seat ≡ turn_of (seen board.now) }
{
    board.leader.ahead(cards_on_table(board))
}

// A player's hand.
pub fn hand_of(hands: [Hand; 4], player: Player) -> Hand
    ensures { result.bits ≡ slice_index (bits_of hands) player.seat }
{
    hands[player.seat as usize]
}

// The hand of the player to play.
pub fn hand_to_play(board: &Board) -> Hand
    ensures { result.bits ≡ slice_index (bits_of board.now.hands) (turn_of (seen board.now)) }
{
    hand_of(board.hands, turn(board))
}

// The tricks still to be finished: the leader's cards, with its card in the trick.
pub fn tricks_left(board: &Board) -> u8
    ensures { result ≡ tricks_left board.now }
{
    let cards = hand_of(board.hands, board.leader).len();
    if cards_on_table(board) == 0 {
        cards
    } else {
        cards + 1
    }
}
