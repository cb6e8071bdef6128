// The cards of a table that came of the root, tried: what a card brings, and the lowest that brings what is looked for.
ghost use Rattle.std.specs.Prelude.{◌≡◌, ◌+◌, ◌<◌};
ghost use Rattle.cards.specs.Table.{deck};
ghost use Rattle.cards.specs.Seen.{seen};
ghost use Rattle.worth.specs.Positions.{Under};
ghost use Rattle.worth.specs.Lent.{SameSlots};
ghost use Rattle.equals.specs.Covered.{card_told};
ghost use Rattle.claims.specs.Tried.{tried, LowestCard};

use cards::board::Board;
use cards::card::Card;
use tricks::play::play;
use worth::positions::Positions;
use worth::search::worth_under;

// The cards from the lowest on.
pub(crate) fn nth_card(place: u8) -> Card
    requires { place < deck }
    ensures { result.number ≡ place }
{
    Card { number: place }
}

// The tricks that are gained at once, and those of the table after.
fn in_all(gain: u8, rest: u8) -> u8
    requires { gain + rest < 256 }
    ensures { result ≡ gain + rest }
{
    gain + rest
}

// The tricks for our side by a card, if it may be played.
pub(crate) fn worth_by(board: &Board, card: Card, positions: &mut Positions<'_>) -> Option<u8>
    requires { Under (seen positions.old.root) (seen board.now) }
    ensures worth { result ≡ tried (seen board.now) card.number }
    ensures same { SameSlots positions.old positions.new }
{
    let played = play(board, card)?;
    let rest = worth_under(&played.board, positions);
    Some(in_all(played.gain(), rest))
}

// The lowest card that may be played and whose worth passes a test. By a loop: to try a card writes to the positions,
// and of a closure that writes at each call the caller does not learn what it returned.
pub(crate) fn lowest_card<F: Fn(u8) -> bool>(
    board: &Board,
    positions: &mut Positions<'_>,
    passes: F,
) -> Option<Card>
    requires under { Under (seen positions.old.root) (seen board.now) }
    requires callable { F.IsAlwaysCallable passes }
    ensures card { LowestCard (F.post passes) (seen board.now) (card_told result) }
    ensures same { SameSlots positions.old positions.new }
{
    for number in 0..52u8 {
        let card = nth_card(number);
        if worth_by(board, card, positions).is_some_and(&passes) {
            return Some(card);
        }
    }
    None
}
