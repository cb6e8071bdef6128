// What both programs do around the answer: their argument, their input, the memory for positions, and their exit status.
#![tactic(auto)]

ghost use Rattle.std.specs.Prelude.{◌≡◌, ℕ, ◌+◌, ◌*◌, ◌^◌, ◌≤◌, min, ◌⊎◌, Ok, IfSome, IfOk, vec_len, codes, true, false, Some, None, MatchOption};
ghost use Rattle.std.specs.List.{AllClonesOf};
ghost use Rattle.std.specs.Process.{exit_status};
ghost use Rattle.console.specs.Served.{Served, Ended};

use anyhow::Context;
use std::alloc::Global;
use std::env;
use std::io::Read;
use std::process::ExitCode;
use worth::positions::slots;

#[cfg(test)]
mod tests;

// The number of cards that a word says, if it is from 1 to 8.
fn cards_in(word: &str) -> Option<u8>
    ensures value { Served word.now result }
    ensures bound { IfSome result (λ n. (1 ≤ n) × (n ≤ 8)) }
{
    word.parse::<u8>()
        .ok()
        .filter(|cards| (1..=8).contains(cards))
}

// The most cards in a hand that are asked for: what the argument says, or 5 without one; none where there are more arguments.
fn cards_asked(word: Option<&str>, more: bool) -> Option<u8>
    ensures value { MatchOption word.entry (result ≡ Some 5) (λ w. more ≡ false → Served w.now result) }
    ensures one { more ≡ true → IfSome word.entry (λ _. result ≡ None) }
    ensures bound { IfSome result (λ n. (1 ≤ n) × (n ≤ 8)) }
{
    let Some(word) = word else {
        return Some(5);
    };
    if more {
        return None;
    }
    cards_in(word)
}

// Why the arguments ask for no cards: there are several, or the one says no number from 1 to 8.
fn reason(several: bool) -> &'static str
    ensures many { several ≡ true → result.now ≡ codes "more than one argument" }
    ensures one { several ≡ false → result.now ≡ codes "no number of cards" }
{
    if several {
        "more than one argument"
    } else {
        "no number of cards"
    }
}

// The most cards in a hand that are served, by the program's arguments.
pub fn most_cards(rt: &HostRuntime) -> anyhow::Result<u8>
    ensures { IfOk result (λ n. (1 ≤ n) × (n ≤ 8)) }
{
    let mut args = env::args(rt)?;
    let _program = args.next();
    let word = args.next();
    let more = args.next().is_some();
    cards_asked(word.as_deref(), more).context(reason(more))
}

// All of standard input.
pub fn read_input(rt: &HostRuntime) -> anyhow::Result<Vec<u8>> {
    let mut input = Vec::new(rt.alloc());
    rt.stdin().read_to_end(&mut input)?;
    Ok(input)
}

// The slots for tables of so many cards in a hand, all empty. Without memory there is no slot, and the refusal says so.
pub fn lend_slots<T: Clone>(heap: Global, cards: u8, empty: T) -> Vec<T>
    ensures room { (vec_len result ≡ 2 ^ (2 * min cards 8 + 4)) ⊎ (vec_len result ≡ 0) }
    ensures empty { AllClonesOf T.is_clone empty result.items }
{
    vec![in heap; empty; slots(cards)].unwrap_or(Vec::new(heap))
}

// How a program is called, on standard error.
pub fn show_usage(rt: &HostRuntime, program: &str) -> anyhow::Result<()> {
    eprintln!(rt;
        "usage: {program} [CARDS]   (the most cards in a hand that it serves, 1 to 8; 5 without it)"
    )?;
    Ok(())
}

// What a program does with the most cards that its argument asks for: it runs for them, or shows its usage and fails.
pub fn serve<F: FnOnce(&HostRuntime, u8) -> anyhow::Result<()>>(
    rt: &HostRuntime,
    program: &str,
    asked: anyhow::Result<u8>,
    run: F,
) -> anyhow::Result<ExitCode>
    requires { IfOk asked (F.pre run rt) }
    ensures { IfOk result (λ code. Ended asked (λ cards. F.post run rt.entry cards (Ok tt)) (exit_status code)) }
{
    let Ok(cards) = asked else {
        show_usage(rt, program)?;
        return Ok(ExitCode::FAILURE);
    };
    run(rt, cards)?;
    Ok(ExitCode::SUCCESS)
}
