// Playing on from a table: one side goes by advice, the other plays the cards of a row, to the end or to the row's end.
ghost use Rattle.std.specs.Prelude.{◌≡◌, ◌+◌, ◌≤◌, false, length, MatchOption};
ghost use Rattle.cards.specs.Seen.{seen};
ghost use Rattle.tricks.specs.Rules.{may};
ghost use Rattle.equals.specs.Covered.{card_told};
ghost use Rattle.worth.specs.Positions.{Under};
ghost use Rattle.worth.specs.Lent.{SameSlots};
ghost use Rattle.claims.specs.Sides.{is_ours};
ghost use Rattle.claims.specs.PlayOn.{own_card};
ghost use Rattle.claims.specs.Nexts.{NextPlayed, ByRow, NextTold, CourseTold};
ghost use Rattle.claims.specs.PlayedOn.{PlayOnTold};

use crate::advice::advice_under;
use crate::turns::is_turn_of;
use cards::board::Board;
use cards::card::Card;
use cards::few::Few;
use cards::player::Side;
use cards::refusal::{Lent, Refusal};
use referee::row::{Play, has_places, play_at, play_row};
use tricks::play::play;
use worth::call::prepare;
use worth::positions::Positions;

// The table where the play stopped, and how many plays there were.
#[derive(Clone, Copy)]
pub struct Line {
    pub board: Board,
    pub plays: usize,
}

// A card that was played, the table after it, and how many cards of the row are used then.
#[derive(Clone, Copy)]
struct Next {
    board: Board,
    card: Card,
    // counted, since a refusal tells its place in the row
    used: usize,
}

// The card advised to a side, where it is to play and has one.
fn own_advice(board: &Board, side: Side, positions: &mut Positions<'_>) -> Option<Card>
    requires { Under (seen positions.old.root) (seen board.now) }
    ensures card { card_told result ≡ own_card (is_ours side) (seen board.now) }
    ensures same { SameSlots positions.old positions.new }
{
    if !is_turn_of(side, board) {
        return None;
    }
    advice_under(board, positions)
}

// The play of a card that uses none of the row, if it may be played.
fn by_advice(board: &Board, card: Card, used: usize) -> Option<Next>
    ensures { MatchOption result (may (seen board.now) card.number ≡ false) (λ x. NextPlayed (seen board.now) card.number used x) }
{
    let played = play(board, card)?;
    Some(Next {
        board: played.board,
        card,
        used,
    })
}

// The play of the next card of the row; none where the row is at its end.
fn by_row(board: &Board, row: &[u8], used: usize) -> Result<Option<Next>, Refusal>
    requires { used ≤ length row.now }
    ensures { ByRow (seen board.now) row.now used result }
{
    let Some(byte) = row.get(used) else {
        return Ok(None);
    };
    let step = play_at(board, *byte, used)?;
    Ok(Some(Next {
        board: step.board,
        card: step.play.card,
        used: used + 1,
    }))
}

// What is played next, where so many cards of the row are used; none where the play ends.
fn next_play(
    board: &Board,
    side: Side,
    row: &[u8],
    used: usize,
    positions: &mut Positions<'_>,
) -> Result<Option<Next>, Refusal>
    requires used { used ≤ length row.now }
    requires under { Under (seen positions.old.root) (seen board.now) }
    ensures next { NextTold (own_card (is_ours side) (seen board.now)) (seen board.now) row.now used result }
    ensures same { SameSlots positions.old positions.new }
{
    match own_advice(board, side, positions) {
        Some(card) => Ok(by_advice(board, card, used)),
        None => by_row(board, row, used),
    }
}

// The cards that are played from a board on, by both sides. A table in order has at most 32.
fn course_from(
    board: &Board,
    side: Side,
    row: &[u8],
    positions: &mut Positions<'_>,
) -> Result<Few<u8, 32>, Refusal>
    requires { Under (seen positions.old.root) (seen board.now) }
    ensures course { CourseTold (is_ours side) (seen board.now) row.now result }
    ensures same { SameSlots positions.old positions.new }
{
    let mut course = Few::empty(0);
    let mut used = 0usize;
    let mut table = *board;
    while let Some(next) = next_play(&table, side, row, used, positions)? {
        course.push(next.card.number).unwrap();
        used = next.used;
        table = next.board;
    }
    Ok(course)
}

// Plays on from a table: `side` by advice, the other side by the row of its cards. The plays are written to the lent slice at the end.
pub fn play_on(
    board: &Board,
    side: Side,
    row: &[u8],
    plays: &mut [Play],
    positions: &mut [u64],
    worths: &mut [u8],
) -> Result<Line, Refusal>
    ensures { PlayOnTold (is_ours side) (seen board.now) row.now plays.old plays.new positions.old worths.old positions.new worths.new result }
{
    if !has_places(board, plays.len()) {
        return Err(Refusal::Short(Lent::Plays));
    }
    prepare(board, positions, worths)?;
    let mut kept = Positions {
        root: *board,
        keys: positions,
        worths,
    };
    let course = course_from(board, side, row, &mut kept)?;
    let table = play_row(board, course.as_slice(), plays)?;
    Ok(Line {
        board: table,
        plays: course.len(),
    })
}
