// The worth of a table, with memory that is lent for the positions.
ghost use Rattle.std.specs.Prelude.{◌≡◌};
ghost use Rattle.cards.specs.Seen.{seen, tricks_left};
ghost use Rattle.worth.specs.Answer.{usable, Prepared, Judged};

use crate::positions::{Positions, clear};
use crate::search::worth_under;
use cards::board::Board;
use cards::refusal::{Lent, Refusal};

// Whether there are slots, each with a key and a worth.
pub fn is_usable(keys: &[u64], worths: &[u8]) -> bool
    ensures { result ≡ usable keys.now worths.now }
{
    keys.len() > 0 && keys.len() == worths.len()
}

// Empties the slots for a search from a root, if they can be used.
pub fn prepare(root: &Board, keys: &mut [u64], worths: &mut [u8]) -> Result<(), Refusal>
    ensures { Prepared (seen root.now) keys.old worths.old keys.new worths.new result }
{
    if !is_usable(keys, worths) {
        return Err(Refusal::Short(Lent::Positions));
    }
    clear(root, keys, worths);
    Ok(())
}

// The tricks that our side takes of those left, if both sides play as well as can be.
pub fn worth(board: &Board, positions: &mut [u64], worths: &mut [u8]) -> Result<u8, Refusal>
    ensures { Judged (seen board.now) (tricks_left board.now) positions.old worths.old positions.new worths.new result }
{
    prepare(board, positions, worths)?;
    let mut kept = Positions {
        root: *board,
        keys: positions,
        worths,
    };
    Ok(worth_under(board, &mut kept))
}
