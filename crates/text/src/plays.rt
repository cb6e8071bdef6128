// Plays as text: `0: CA` for who played which card, and after a trick's last card `1 trick: 0` for which trick it was and who took it.
ghost use Rattle.std.specs.Prelude.{◌≡◌, ◌+◌, ◌^◌, ◌<◌, ◌≤◌, length, Some};
ghost use Rattle.std.specs.Fmt.{WritesOnOk};
ghost use Rattle.tricks.specs.Taken.{taker_of};
ghost use Rattle.referee.specs.Plays.{note_of, notes_of};
ghost use Rattle.text.specs.Plays.{play_line, trick_line, tricks_after, play_text, more_plays, plays_text};

use crate::Shown;
use cards::player::Player;
use referee::row::Play;
use std::fmt;

// Who played, and which card.
impl fmt::Display for Shown<Play> {
    ghost output = { λ x. Some (play_line (note_of x.0)) };

    fn fmt<W: fmt::Write>(&self, f: &mut fmt::Formatter<W>) -> fmt::Result {
        let player = self.0.player.seat;
        let card = Shown(self.0.card);
        write!(f, "{player}: {card}")
    }
}

// Where a trick ended, a line for it, a newline before it. That one more trick can be counted stays a clause here and below: a type for such counts would say no more.
fn show_trick<W: fmt::Write>(
    before: usize,
    taker: Option<Player>,
    f: &mut fmt::Formatter<W>,
) -> fmt::Result
    requires { before + 1 < 2 ^ 64 }
    ensures { WritesOnOk W.write_str_gives f.old result (trick_line before (taker_of taker)) f.new }
{
    match taker {
        Some(player) => {
            let number = before + 1;
            let seat = player.seat;
            write!(f, "\n{number} trick: {seat}")
        }
        None => Ok(()),
    }
}

// The tricks that have ended, with the one that this play ended.
fn count_trick(before: usize, taker: Option<Player>) -> usize
    requires { before + 1 < 2 ^ 64 }
    ensures value { result ≡ tricks_after before (taker_of taker) }
    ensures bound { result ≤ before + 1 }
{
    before + usize::from(taker.is_some())
}

// A play after so many tricks.
fn show_play<W: fmt::Write>(before: usize, play: Play, f: &mut fmt::Formatter<W>) -> fmt::Result
    requires { before + 1 < 2 ^ 64 }
    ensures { WritesOnOk W.write_str_gives f.old result (play_text before (note_of play)) f.new }
{
    f.write(Shown(play))?;
    show_trick(before, play.taker, f)
}

// Plays after others and so many tricks, a newline before each. Not by `show_each`, as a play's text depends on the tricks before it.
fn show_more<W: fmt::Write>(before: usize, plays: &[Play], f: &mut fmt::Formatter<W>) -> fmt::Result
    requires { before + length plays.now < 2 ^ 64 }
    ensures { WritesOnOk W.write_str_gives f.old result (more_plays before (notes_of plays.now)) f.new }
{
    let mut ended = before;
    for play in plays {
        f.write_str("\n")?;
        show_play(ended, *play, f)?;
        ended = count_trick(ended, play.taker);
    }
    Ok(())
}

// The lines of all plays, with tricks counted from 1; without plays there is nothing.
impl fmt::Display for Shown<&[Play]> {
    ghost output = { λ x. Some (plays_text (notes_of x.0.now)) };

    fn fmt<W: fmt::Write>(&self, f: &mut fmt::Formatter<W>) -> fmt::Result {
        match self.0 {
            [] => Ok(()),
            [first, rest @ ..] => {
                show_play(0, *first, f)?;
                show_more(count_trick(0, first.taker), rest, f)
            }
        }
    }
}
