// Judges a claim: reads a deal, a row of cards and a claim from standard input, and prints what it says of them.
#![tactic(auto)]

use claims::bytes::judge_bytes;
use console::{lend_slots, most_cards, read_input, serve};
use std::process::ExitCode;
use text::Shown;

// It begins as `play`'s does, with input and slots, and goes on with other memory and another answer.
fn run(rt: &HostRuntime, cards: u8) -> anyhow::Result<()> {
    let input = read_input(rt)?;
    let mut positions = lend_slots(rt.alloc(), cards, 0u64);
    let mut worths = lend_slots(rt.alloc(), cards, 0u8);
    match judge_bytes(&input, cards, &mut positions, &mut worths) {
        Ok(judgement) => rt.println(Shown(judgement))?,
        Err(refusal) => rt.println(Shown(refusal))?,
    }
    Ok(())
}

fn main(rt: HostRuntime) -> anyhow::Result<ExitCode> {
    serve(&rt, "judge", most_cards(&rt), run)
}
