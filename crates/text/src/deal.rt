// Tables as text: a line for trump, leader and trick, and one for each hand.
ghost use Rattle.std.specs.Prelude.{◌≡◌, Some};
ghost use Rattle.std.specs.Fmt.{WritesOnOk};
ghost use Rattle.cards.specs.Numbers.{trump_number};
ghost use Rattle.cards.specs.Hands.{held};
ghost use Rattle.cards.specs.Seen.{seen};
ghost use Rattle.text.specs.Deals.{trump_word, trump_text, first_line, hand_lines, table_text};

use crate::Shown;
use crate::card::suit_letter;
use cards::board::Board;
use cards::card::Trump;
use cards::hand::Hand;
use cards::player::Player;
use std::fmt;
use tricks::turn::{current_trick, hand_of};

// The letter of the suit that is trump, or `none`.
fn trump_word(trump: Trump) -> &'static str
    ensures { result.now ≡ trump_word (trump_number trump) }
{
    match trump {
        Trump::Of(suit) => suit_letter(suit),
        Trump::NoTrump => "none",
    }
}

impl fmt::Display for Shown<Trump> {
    ghost output = { λ x. Some (trump_text (trump_number x.0)) };

    fn fmt<W: fmt::Write>(&self, f: &mut fmt::Formatter<W>) -> fmt::Result {
        let word = trump_word(self.0);
        write!(f, "trump {word}")
    }
}

// The line of trump, of who leads and of the trick.
fn show_first_line<W: fmt::Write>(board: &Board, f: &mut fmt::Formatter<W>) -> fmt::Result
    ensures { WritesOnOk W.write_str_gives f.old result (first_line (seen board.now)) f.new }
{
    let trump = Shown(board.trump);
    let leader = board.leader.seat;
    let trick = Shown(current_trick(board));
    write!(f, "{trump}, leader {leader}, trick {trick}")
}

// A line for each hand, a newline before it.
fn show_hands<W: fmt::Write>(hands: [Hand; 4], f: &mut fmt::Formatter<W>) -> fmt::Result
    ensures { WritesOnOk W.write_str_gives f.old result (hand_lines (held hands)) f.new }
{
    let first = Shown(hand_of(hands, Player { seat: 0 }));
    let second = Shown(hand_of(hands, Player { seat: 1 }));
    let third = Shown(hand_of(hands, Player { seat: 2 }));
    let fourth = Shown(hand_of(hands, Player { seat: 3 }));
    write!(f, "\n0: {first}\n1: {second}\n2: {third}\n3: {fourth}")
}

impl fmt::Display for Shown<Board> {
    ghost output = { λ x. Some (table_text (seen x.0)) };

    fn fmt<W: fmt::Write>(&self, f: &mut fmt::Formatter<W>) -> fmt::Result {
        show_first_line(&self.0, f)?;
        show_hands(self.0.hands, f)
    }
}
