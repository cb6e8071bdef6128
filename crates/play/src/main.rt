// Plays on: reads a deal, a byte for the side that it plays and the other side's cards from standard input, plays its own by advice, and prints the plays.
#![tactic(auto)]

use claims::bytes::play_bytes;
use console::{lend_slots, most_cards, read_input, serve};
use referee::row::Play;
use std::process::ExitCode;
use text::Shown;

// The lines of the plays; without any there is no line.
fn show_plays(rt: &HostRuntime, plays: &[Play]) -> anyhow::Result<()> {
    if !plays.is_empty() {
        rt.println(Shown(plays))?;
    }
    Ok(())
}

fn run(rt: &HostRuntime, cards: u8) -> anyhow::Result<()> {
    let input = read_input(rt)?;
    let mut positions = lend_slots(rt.alloc(), cards, 0u64);
    let mut worths = lend_slots(rt.alloc(), cards, 0u8);
    // places to lend
    let mut plays = [Play::blank(); 32];
    match play_bytes(&input, cards, &mut plays, &mut positions, &mut worths) {
        Ok(line) => show_plays(rt, &plays[..line.plays]),
        Err(refusal) => Ok(rt.println(Shown(refusal))?),
    }
}

fn main(rt: HostRuntime) -> anyhow::Result<ExitCode> {
    serve(&rt, "play", most_cards(&rt), run)
}
