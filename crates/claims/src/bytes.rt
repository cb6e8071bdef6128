// From an input in bytes to the answer: judging, and playing on.
ghost use Rattle.std.specs.Prelude.{◌≡◌, ◌+◌, ◌-◌, ◌≤◌, length, drop};
ghost use Rattle.cards.specs.Deal.{byte};
ghost use Rattle.claims.specs.Bytes.{judging_room, InputTold, TableTold, playing_room, PlayTold};

use crate::claim::{claim_from, side_of};
use crate::judge::{Judgement, judge};
use crate::play_on::{Line, play_on};
use cards::board::Board;
use cards::reader::{byte_at, read_deal};
use cards::refusal::Refusal;
use cards::room::Room;
use referee::row::{Play, play_row};
use tricks::turn::tricks_left;

// What the last two bytes of an input claim, and how many stand before them.
#[derive(Clone, Copy)]
struct Ending {
    before: usize,
    side: u8,
    tricks: u8,
}

fn ending_of(bytes: &[u8]) -> Ending
    ensures before { result.before ≡ length bytes.now - 2 }
    ensures side { result.side ≡ byte bytes.now (length bytes.now - 2) }
    ensures tricks { result.tricks ≡ byte bytes.now ((length bytes.now - 2) + 1) }
{
    let before = bytes.len().saturating_sub(2);
    Ending {
        before,
        side: byte_at(bytes, before),
        tricks: byte_at(bytes, before + 1),
    }
}

// What stands from a place on.
fn rest_from(bytes: &[u8], place: usize) -> &[u8]
    requires { place ≤ length bytes.now }
    ensures { result.now ≡ drop place bytes.now }
{
    &bytes[place..]
}

// The table after the row that follows a deal.
fn table_after(bytes: &[u8], room: Room) -> Result<Board, Refusal>
    ensures { TableTold bytes.now room result }
{
    let deal = read_deal(bytes, room, 0)?;
    // places to lend to the referee
    let mut plays = [Play::blank(); 32];
    play_row(&deal.board, rest_from(bytes, deal.size), &mut plays)
}

// Judges an input: a deal of at most so many cards in a hand, a row of cards, and a claim, which is judged at the table after the row.
// Every check comes before the first write to positions.
pub fn judge_bytes(
    bytes: &[u8],
    cards: u8,
    positions: &mut [u64],
    worths: &mut [u8],
) -> Result<Judgement, Refusal>
    ensures { InputTold bytes.now (judging_room cards positions.old worths.old) positions.old worths.old positions.new worths.new result }
{
    let room = Room {
        cards,
        // four times the largest number byte
        plays: 1020,
        positions: positions.len(),
        worths: worths.len(),
    };
    let end = ending_of(bytes);
    let board = table_after(&bytes[..end.before], room)?;
    let claim = claim_from(end.side, end.tricks, tricks_left(&board))?;
    judge(&board, claim, positions, worths)
}

// Plays on from the table of an input: a deal of at most so many cards in a hand, a byte for the side that goes by advice, and the other side's cards.
pub fn play_bytes(
    bytes: &[u8],
    cards: u8,
    plays: &mut [Play],
    positions: &mut [u64],
    worths: &mut [u8],
) -> Result<Line, Refusal>
    ensures { PlayTold bytes.now (playing_room cards plays.old positions.old worths.old) plays.old plays.new positions.old worths.old positions.new worths.new result }
{
    let room = Room {
        cards,
        plays: plays.len(),
        positions: positions.len(),
        worths: worths.len(),
    };
    // the byte for the side has to follow
    let deal = read_deal(bytes, room, 1)?;
    let side = side_of(byte_at(bytes, deal.size))?;
    let row = rest_from(bytes, deal.size + 1);
    play_on(&deal.board, side, row, plays, positions, worths)
}
