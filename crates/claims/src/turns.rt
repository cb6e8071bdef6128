// Whose turn it is, by sides.
ghost use Rattle.std.specs.Prelude.{◌≡◌};
ghost use Rattle.cards.specs.Seen.{seen};
ghost use Rattle.claims.specs.Sides.{is_ours};
ghost use Rattle.claims.specs.Judging.{own_turn};

use cards::board::Board;
use cards::player::Side;
use tricks::turn::turn;

// Whether a side is to play.
pub(crate) fn is_turn_of(side: Side, board: &Board) -> bool
    ensures { result ≡ own_turn (is_ours side) (seen board.now) }
{
    turn(board).side() == side
}
