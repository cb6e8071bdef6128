// The lowest card that makes a claim fail.
ghost use Rattle.std.specs.Prelude.{◌≡◌, not};
ghost use Rattle.cards.specs.Seen.{seen, tricks_left};
ghost use Rattle.equals.specs.Covered.{card_told};
ghost use Rattle.worth.specs.Positions.{Under};
ghost use Rattle.worth.specs.Lent.{SameSlots};
ghost use Rattle.claims.specs.Claims.{upheld};
ghost use Rattle.claims.specs.Failing.{failing};
ghost use Rattle.claims.specs.Claimed.{claims_side, claims_tricks};

use crate::claim::{Claim, upholds};
use crate::tried::lowest_card;
use cards::board::Board;
use cards::card::Card;
use tricks::turn::tricks_left;
use worth::positions::Positions;

// At a board that came of the root, the lowest card that makes the claim fail.
pub(crate) fn failing_under(
    board: &Board,
    claim: Claim,
    positions: &mut Positions<'_>,
) -> Option<Card>
    requires { Under (seen positions.old.root) (seen board.now) }
    ensures card { card_told result ≡ failing (claims_side claim) (tricks_left board.now) (claims_tricks claim) (seen board.now) }
    ensures same { SameSlots positions.old positions.new }
{
    let left = tricks_left(board);
    lowest_card(
        board,
        positions,
        |worth|
            ensures { result ≡ not (upheld (claims_side claim) left (claims_tricks claim) worth) }
        { !upholds(claim, left, worth) },
    )
}
