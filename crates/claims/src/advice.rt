// The card to play: the lowest that keeps the worth.
ghost use Rattle.std.specs.Prelude.{◌≡◌, ◌==◌};
ghost use Rattle.cards.specs.Seen.{seen, tricks_left};
ghost use Rattle.equals.specs.Covered.{card_told};
ghost use Rattle.worth.specs.Positions.{Under};
ghost use Rattle.worth.specs.Lent.{SameSlots};
ghost use Rattle.claims.specs.Advice.{advice};
ghost use Rattle.claims.specs.Answer.{Advised};

use crate::tried::lowest_card;
use cards::board::Board;
use cards::card::Card;
use cards::refusal::Refusal;
use worth::call::prepare;
use worth::positions::Positions;
use worth::search::worth_under;

// The advice at a board that came of the root.
pub(crate) fn advice_under(board: &Board, positions: &mut Positions<'_>) -> Option<Card>
    requires { Under (seen positions.old.root) (seen board.now) }
    ensures card { card_told result ≡ advice (seen board.now) }
    ensures same { SameSlots positions.old positions.new }
{
    let worth = worth_under(board, positions);
    lowest_card(
        board,
        positions,
        |tricks|
            ensures { result ≡ (tricks == worth) }
        { tricks == worth },
    )
}

// The advice for whoever is to play, with memory that is lent for the positions; none if nobody has a card.
pub fn advise(
    board: &Board,
    positions: &mut [u64],
    worths: &mut [u8],
) -> Result<Option<Card>, Refusal>
    ensures { Advised (seen board.now) (tricks_left board.now) positions.old worths.old positions.new worths.new result }
{
    prepare(board, positions, worths)?;
    let mut kept = Positions {
        root: *board,
        keys: positions,
        worths,
    };
    Ok(advice_under(board, &mut kept))
}
