// The judgement of a claim, with memory that is lent for the positions.
ghost use Rattle.std.specs.Prelude.{◌≡◌, nat_le};
ghost use Rattle.cards.specs.Seen.{seen, tricks_left};
ghost use Rattle.worth.specs.Positions.{Under};
ghost use Rattle.worth.specs.Lent.{SameSlots};
ghost use Rattle.claims.specs.Claimed.{claims_side, claims_tricks};
ghost use Rattle.claims.specs.Judging.{judging};
ghost use Rattle.claims.specs.Judged.{judgement_told, ClaimJudged};

use crate::advice::advice_under;
use crate::claim::{Claim, upholds};
use crate::failing::failing_under;
use crate::replies::{Reply, is_claimers_turn, replies_under};
use cards::board::Board;
use cards::card::Card;
use cards::few::Few;
use cards::refusal::Refusal;
use tricks::turn::tricks_left;
use worth::call::prepare;
use worth::positions::Positions;
use worth::search::worth_under;

// Each with the tricks that our side takes of those left, whoever claims.
#[derive(Clone, Copy)]
pub enum Judgement {
    // the claim is upheld: the advice for whoever is to play
    Upheld { worth: u8, card: Option<Card> },
    // it is not, and the other side is to play: its lowest card with which the claim fails
    Fails { worth: u8, card: Option<Card> },
    // it is not, and the side that claims is to play: the reply to each of its cards
    Replies { worth: u8, replies: Few<Reply, 8> },
}

// Whether no more tricks are claimed than are left.
fn is_within(claim: Claim, left: u8) -> bool
    ensures { result ≡ nat_le (claims_tricks claim) left }
{
    match claim {
        Claim::Ours(tricks) | Claim::Others(tricks) => tricks <= left,
    }
}

// The judgement of a claim at a board that came of the root.
fn judge_under(board: &Board, claim: Claim, positions: &mut Positions<'_>) -> Judgement
    requires { Under (seen positions.old.root) (seen board.now) }
    ensures judged { judgement_told result ≡ judging (claims_side claim) (tricks_left board.now) (claims_tricks claim) (seen board.now) }
    ensures same { SameSlots positions.old positions.new }
{
    let left = tricks_left(board);
    let worth = worth_under(board, positions);
    if upholds(claim, left, worth) {
        let card = advice_under(board, positions);
        return Judgement::Upheld { worth, card };
    }
    if is_claimers_turn(claim, board) {
        let replies = replies_under(board, claim, positions);
        return Judgement::Replies { worth, replies };
    }
    let card = failing_under(board, claim, positions);
    Judgement::Fails { worth, card }
}

// Judges a claim of the tricks left.
pub fn judge(
    board: &Board,
    claim: Claim,
    positions: &mut [u64],
    worths: &mut [u8],
) -> Result<Judgement, Refusal>
    ensures { ClaimJudged (claims_side claim) (tricks_left board.now) (claims_tricks claim) (seen board.now) positions.old worths.old positions.new worths.new result }
{
    if !is_within(claim, tricks_left(board)) {
        return Err(Refusal::Claim);
    }
    prepare(board, positions, worths)?;
    let mut kept = Positions {
        root: *board,
        keys: positions,
        worths,
    };
    Ok(judge_under(board, claim, &mut kept))
}
