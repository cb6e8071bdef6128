// A row of cards as bytes, played on a table card by card, or refused at the first that may not be played.
ghost use Rattle.std.specs.Prelude.{◌≡◌, ◌≤◌, false, not, length, MatchOption, IfOk, nat_lt, sum_by};
ghost use Rattle.cards.specs.Table.{deck, count, cards_left};
ghost use Rattle.cards.specs.Few.{listed};
ghost use Rattle.cards.specs.Bits.{bit};
ghost use Rattle.cards.specs.Seen.{seen};
ghost use Rattle.cards.specs.Refusals.{number_of, place_of};
ghost use Rattle.tricks.specs.Rules.{may, turn as turn_of};
ghost use Rattle.tricks.specs.Taken.{taker_of};
ghost use Rattle.referee.specs.Plays.{note_of, blank};
ghost use Rattle.referee.specs.Row.{why_by};
ghost use Rattle.referee.specs.Parts.{Moved, Stepped, Logged, Within, Written};
ghost use Rattle.referee.specs.Refereed.{Refereed, told};
ghost use Rattle.referee.specs.Right.{Right};

use cards::board::Board;
use cards::card::Card;
use cards::few::Few;
use cards::hand::Hand;
use cards::player::Player;
use cards::refusal::{Lent, Refusal};
use tricks::play::play;
use tricks::turn::{hand_to_play, turn};

// A card that was played, by whom, and who took the trick that it ended.
#[derive(Clone, Copy)]
pub struct Play {
    pub player: Player,
    pub card: Card,
    pub taker: Option<Player>,
}

impl Play {
    // A play that says nothing, for places where none is written yet.
    pub fn blank() -> Play
        ensures { note_of result ≡ blank }
    {
        Play {
            player: Player { seat: 0 },
            card: Card { number: 0 },
            taker: None,
        }
    }
}

// A play, and the table after it.
#[derive(Clone, Copy)]
pub struct Step {
    pub board: Board,
    pub play: Play,
}

// The plays of a row, and the table after them. A table in order has at most 32 cards.
#[derive(Clone, Copy)]
struct Log {
    board: Board,
    plays: Few<Play, 32>,
}

// The play of a card by the player to play.
fn play_of(board: &Board, card: Card, taker: Option<Player>) -> Play
    ensures player { result.player.seat ≡ turn_of (seen board.now) }
    ensures card { result.card.number ≡ card.number }
    ensures taker { taker_of result.taker ≡ taker_of taker }
{
    Play {
        player: turn(board),
        card,
        taker,
    }
}

// Plays the card that a byte says, if there is one and it may be played.
fn play_byte(board: &Board, byte: u8) -> Option<Step>
    ensures { MatchOption result (may (seen board.now) byte ≡ false) (λ s. Moved (seen board.now) byte s) }
{
    let card = Card::try_from(byte).ok()?;
    let played = play(board, card)?;
    Some(Step {
        board: played.board,
        play: play_of(board, card, played.taker),
    })
}

// Whether a byte says a card of a hand.
fn holds_byte(hand: Hand, byte: u8) -> bool
    ensures { result ≡ bit hand.bits byte }
{
    Card::try_from(byte).is_ok_and(|card| hand.holds(card))
}

// Why a byte that may not be played is refused, by the hand of the player to play.
fn why_not(hand: Hand, byte: u8, place: usize) -> Refusal
    ensures number { number_of result ≡ why_by (bit hand.bits) byte }
    ensures place { place_of result ≡ place }
{
    if hand.len() == 0 {
        return Refusal::AfterLast(place);
    }
    if holds_byte(hand, byte) {
        return Refusal::Revoke(place);
    }
    Refusal::NotHeld(place)
}

// Plays a byte of a row, at its place, or says why it is refused.
pub fn play_at(board: &Board, byte: u8, place: usize) -> Result<Step, Refusal>
    ensures { Stepped (seen board.now) byte place result }
{
    play_byte(board, byte).ok_or_else(|| why_not(hand_to_play(board), byte, place))
}

// Plays a row, card by card.
fn log_row(board: &Board, row: &[u8]) -> Result<Log, Refusal>
    ensures { Logged (seen board.now) row.now result }
{
    let mut plays = Few::empty(Play::blank());
    let mut table = *board;
    for (place, byte) in row.iter().enumerate() {
        let next = play_at(&table, *byte, place)?;
        plays.push(next.play).unwrap();
        table = next.board;
    }
    Ok(Log {
        board: table,
        plays,
    })
}

// How many cards the hands have.
fn count_cards(hands: &[Hand]) -> usize
    requires { length hands.now ≤ 4 }
    ensures { result ≡ sum_by (λ h. count (bit h.bits) deck) hands.now }
{
    hands.iter().map(|hand| hand.len() as usize).sum()
}

// Whether there are places for the plays of all cards that are left.
#[tactic(auto, using(crate::proofs::CardsLaws::board_count))]
pub fn has_places(board: &Board, places: usize) -> bool
    ensures { result ≡ not (nat_lt places (cards_left (seen board.now))) }
{
    count_cards(&board.hands) <= places
}

// Plays a row, if there are such places.
fn log_within(board: &Board, row: &[u8], places: usize) -> Result<Log, Refusal>
    ensures { Within (seen board.now) places row.now result }
{
    if !has_places(board, places) {
        return Err(Refusal::Short(Lent::Plays));
    }
    log_row(board, row)
}

// Writes the plays of a row that is taken into the first places of a slice; of one that is refused it writes none.
fn hand_over(logged: Result<Log, Refusal>, plays: &mut [Play]) -> Result<Board, Refusal>
    requires { IfOk logged (λ l. length (listed l.plays) ≤ length plays.old) }
    ensures { Written logged plays.old plays.new result }
{
    let log = logged?;
    plays[..log.plays.len()].copy_from_slice(log.plays.as_slice());
    Ok(log.board)
}

// Plays a row of cards on a table, and writes its plays into the lent slice, which a refused row leaves as it was.
pub fn play_row(board: &Board, row: &[u8], plays: &mut [Play]) -> Result<Board, Refusal>
    ensures value { Refereed (seen board.now) row.now plays.old plays.new result }
    ensures right { Right (seen board.now) (length plays.old) row.now (told (length row.now) plays.new result) }
{
    hand_over(log_within(board, row, plays.len()), plays)
}
