// Tests of the two calls that the programs make, from an input to the lines of its answer.
#![tactic(auto)]

#[cfg(test)]
mod judged;
#[cfg(test)]
mod lines;
#[cfg(test)]
mod played;

#[cfg(test)]
mod tests {
    use crate::judged::{LEADS, LENT, REFUSED, ROWS, STARTED, WORKED, WORTHS};
    use crate::lines::{judged_lines, parts_of, played_lines};
    use crate::played::{PLACES, PLAYED, UNPLAYED};
    use cards::card::Card;
    use cards::few::Few;
    use claims::judge::Judgement;
    use claims::replies::Reply;
    use std::alloc::Global;
    use std::process::Abort;
    use std::test::Fail;
    use text::Shown;

    // Whether a side has the tricks that it claims, where so many of those left are ours.
    fn is_upheld(side: u8, tricks: u8, left: u8, worth: u8) -> bool {
        if side == 0 {
            tricks <= worth
        } else {
            tricks <= left.saturating_sub(worth)
        }
    }

    // How the answer to a claim begins.
    fn opening(heap: Global, side: u8, tricks: u8, left: u8, worth: u8) -> Result<String, Fail> {
        if tricks > left {
            return Ok(format!(in heap; "refused 10 at 0")?);
        }
        if is_upheld(side, tricks, left, worth) {
            return Ok(format!(in heap; "worth {worth}\nupheld\ncard ")?);
        }
        Ok(format!(in heap; "worth {worth}\nnot upheld\n")?)
    }

    // Checks the first lines of the answer to a claim.
    fn check_claim(
        rt: &impl Abort,
        heap: Global,
        deal: &str,
        side: u8,
        tricks: u8,
        left: u8,
        worth: u8,
    ) -> Result<(), Fail> {
        let words = format!(in heap; "{deal}  {side} {tricks}")?;
        let lines = judged_lines(rt, heap, "3", words.as_str())?;
        let wanted = opening(heap, side, tricks, left, worth)?;
        assert!(rt; lines.as_str().starts_with(wanted.as_str()), "{}", words);
        Ok(())
    }

    fn check_judged(rt: &impl Abort, heap: Global, cases: &[&str]) -> Result<(), Fail> {
        for case in cases {
            let (lent, words, wanted) = parts_of(case)?;
            let lines = judged_lines(rt, heap, lent, words)?;
            assert_eq!(rt; lines.as_str(), wanted, "{}", words);
        }
        Ok(())
    }

    fn check_played(rt: &impl Abort, heap: Global, cases: &[&str]) -> Result<(), Fail> {
        for case in cases {
            let (lent, words, wanted) = parts_of(case)?;
            let lines = played_lines(rt, heap, lent, words)?;
            assert_eq!(rt; lines.as_str(), wanted, "{}", words);
        }
        Ok(())
    }

    #[test]
    fn claims_of_both_sides(rt: HostRuntime) -> Result<(), Fail> {
        for (left, worth, deal) in WORTHS {
            for tricks in 0..=left.saturating_add(1) {
                check_claim(&rt, rt.alloc(), deal, 0, tricks, left, worth)?;
                check_claim(&rt, rt.alloc(), deal, 1, tricks, left, worth)?;
            }
        }
        Ok(())
    }

    #[test]
    fn judgements(rt: HostRuntime) -> Result<(), Fail> {
        check_judged(&rt, rt.alloc(), &WORKED)?;
        check_judged(&rt, rt.alloc(), &STARTED)?;
        check_judged(&rt, rt.alloc(), &LEADS)?;
        check_judged(&rt, rt.alloc(), &ROWS)?;
        check_judged(&rt, rt.alloc(), &REFUSED)?;
        check_judged(&rt, rt.alloc(), &LENT)
    }

    #[test]
    fn plays(rt: HostRuntime) -> Result<(), Fail> {
        check_played(&rt, rt.alloc(), &PLAYED)?;
        check_played(&rt, rt.alloc(), &UNPLAYED)?;
        check_played(&rt, rt.alloc(), &PLACES)
    }

    // An array of replies with a count beside it, whatever the count: past the array's end all of them are shown.
    #[test]
    fn replies_up_to_a_count(rt: HostRuntime) -> Result<(), Fail> {
        let mut replies = [Reply {
            card: Card { number: 1 },
            reply: None,
        }; 8];
        replies[0].card = Card { number: 0 };
        replies[7].card = Card { number: 2 };
        let seven = "worth 0\nnot upheld\nC2: -\nC3: -\nC3: -\nC3: -\nC3: -\nC3: -\nC3: -";
        let all = "worth 0\nnot upheld\nC2: -\nC3: -\nC3: -\nC3: -\nC3: -\nC3: -\nC3: -\nC4: -";
        for (count, wanted) in [
            (0, "worth 0\nnot upheld"),
            (1, "worth 0\nnot upheld\nC2: -"),
            (7, seven),
            (8, all),
            (9, all),
            (255, all),
        ] {
            let replies = Few::first(replies, count);
            let judgement = Judgement::Replies { worth: 0, replies };
            let lines = format!(in rt.alloc(); "{}", Shown(judgement))?;
            assert_eq!(rt; lines.as_str(), wanted);
        }
        Ok(())
    }
}
