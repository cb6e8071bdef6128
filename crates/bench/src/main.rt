// The benchmark of the search: reads tables, each after a byte for its length, and prints for each
// the cards in a hand, its worth and the nanoseconds that the search took.
#![tactic(auto)]

use anyhow::{Context, anyhow};
use cards::board::Board;
use cards::reader::read_deal;
use cards::room::Room;
use std::io::Read;
use std::time::Instant;
use worth::call::worth;
use worth::positions::slots;

// A table that is searched with slots for its cards.
fn time_table(rt: &HostRuntime, board: &Board, cards: u8) -> anyhow::Result<()> {
    let heap = rt.alloc();
    let mut positions = vec![in heap; 0u64; slots(cards)]?;
    let mut worths = vec![in heap; 0u8; slots(cards)]?;
    let start = Instant::now(rt)?;
    let answer = worth(board, &mut positions, &mut worths);
    let took = start.elapsed(rt)?.as_nanos();
    if let Ok(tricks) = answer {
        println!(rt; "{cards} {tricks} {took}")?;
    }
    Ok(())
}

fn time_deal(rt: &HostRuntime, deal: &[u8]) -> anyhow::Result<()> {
    // no memory is lent here: only the table is wanted
    let room = Room {
        cards: 8,
        plays: 32,
        positions: 1,
        worths: 1,
    };
    let read = read_deal(deal, room, 0).map_err(|_| anyhow!("a table was refused"))?;
    time_table(rt, &read.board, read.board.hands[0].len())
}

fn main(rt: HostRuntime) -> anyhow::Result<()> {
    let mut input = Vec::new(rt.alloc());
    rt.stdin().read_to_end(&mut input)?;
    let mut rest = input.as_slice();
    while let [size, tail @ ..] = rest {
        let (deal, after) = tail
            .split_at_checked(*size as usize)
            .context("a table ends too early")?;
        time_deal(&rt, deal)?;
        rest = after;
    }
    Ok(())
}
