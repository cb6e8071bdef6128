// Judgements as text: the worth, whether the claim is upheld, and the card or the replies that show it, each on a line.
ghost use Rattle.std.specs.Prelude.{◌≡◌, map, Some};
ghost use Rattle.std.specs.Fmt.{WritesOnOk};
ghost use Rattle.claims.specs.Judged.{reply_told, judgement_told};
ghost use Rattle.text.specs.Judgements.{reply_text, answers_text, judgement_text};

use crate::Shown;
use crate::each::show_each;
use claims::judge::Judgement;
use claims::replies::Reply;
use std::fmt;

impl fmt::Display for Shown<Reply> {
    ghost output = { λ x. Some (reply_text (reply_told x.0)) };

    fn fmt<W: fmt::Write>(&self, f: &mut fmt::Formatter<W>) -> fmt::Result {
        let card = Shown(self.0.card);
        let reply = Shown(self.0.reply);
        write!(f, "{card}: {reply}")
    }
}

// The worth, that the claim is not upheld, and the replies.
fn show_answers<W: fmt::Write>(
    worth: u8,
    replies: &[Reply],
    f: &mut fmt::Formatter<W>,
) -> fmt::Result
    ensures { WritesOnOk W.write_str_gives f.old result (answers_text worth (map reply_told replies.now)) f.new }
{
    write!(f, "worth {worth}\nnot upheld")?;
    show_each("\n", replies, f)
}

impl fmt::Display for Shown<Judgement> {
    ghost output = { λ x. Some (judgement_text (judgement_told x.0)) };

    fn fmt<W: fmt::Write>(&self, f: &mut fmt::Formatter<W>) -> fmt::Result {
        match self.0 {
            Judgement::Upheld { worth, card } => {
                write!(f, "worth {worth}\nupheld\ncard {}", Shown(card))
            }
            Judgement::Fails { worth, card } => {
                write!(f, "worth {worth}\nnot upheld\ncard {}", Shown(card))
            }
            Judgement::Replies { worth, replies } => show_answers(worth, replies.as_slice(), f),
        }
    }
}
