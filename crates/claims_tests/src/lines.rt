// Inputs in words, and the lines of the answers to them.
use cards::card::Card;
use cards::player::Player;
use claims::bytes::{judge_bytes, play_bytes};
use referee::row::Play;
use std::alloc::Global;
use std::process::Abort;
use std::test::Fail;
use text::Shown;

// what stands in the slices for positions before
const KEY: u64 = 77;

const WORTH: u8 = 9;

// The number of a suit's two.
fn lowest_of(suit: u8) -> Option<u8> {
    match suit {
        b'C' => Some(0),
        b'D' => Some(13),
        b'H' => Some(26),
        b'S' => Some(39),
        _ => None,
    }
}

fn rank_of(rank: u8) -> Option<u8> {
    match rank {
        b'2'..=b'9' => Some(rank - b'2'),
        b'T' => Some(8),
        b'J' => Some(9),
        b'Q' => Some(10),
        b'K' => Some(11),
        b'A' => Some(12),
        _ => None,
    }
}

// The byte that a word says: a card in letters, as `CA`, or a number.
fn byte_of(word: &str) -> Result<u8, Fail> {
    if let [suit, rank] = word.as_bytes() {
        if let (Some(low), Some(rank)) = (lowest_of(*suit), rank_of(*rank)) {
            return Ok(low.saturating_add(rank));
        }
    }
    match word.parse::<u8>() {
        Ok(number) => Ok(number),
        Err(_) => Err(Fail::new(format_args!("no byte: {word}"))),
    }
}

// The parts of a case: what is served and lent, the input, and the lines of the answer.
pub(crate) fn parts_of(case: &str) -> Result<(&str, &str, &str), Fail> {
    let Some((lent, rest)) = case.split_once(" | ") else {
        return Err(Fail::new(format_args!("no case: {case}")));
    };
    let Some((words, wanted)) = rest.split_once(" | ") else {
        return Err(Fail::new(format_args!("no case: {case}")));
    };
    Ok((lent, words, wanted))
}

// The bytes of an input in words.
fn bytes_of(heap: Global, words: &str) -> Result<Vec<u8>, Fail> {
    let mut bytes = Vec::new(heap);
    for word in words.split_whitespace() {
        bytes.push(byte_of(word)?)?;
    }
    Ok(bytes)
}

// The most cards in a hand that are served, the number of places for plays, and the lengths of the two slices for positions.
fn lent_of(heap: Global, words: &str) -> Result<(u8, usize, usize, usize), Fail> {
    let bytes = bytes_of(heap, words)?;
    match bytes.as_slice() {
        [most] => Ok((*most, 32, 64, 64)),
        [most, places, keys, worths] => Ok((
            *most,
            *places as usize,
            *keys as usize,
            *worths as usize,
        )),
        _ => Err(Fail::new(format_args!("nothing served: {words}"))),
    }
}

// Fails if the slices for positions were written to.
fn check_unwritten(rt: &impl Abort, positions: &[u64], worths: &[u8]) {
    for key in positions {
        assert_eq!(rt; *key, KEY);
    }
    for worth in worths {
        assert_eq!(rt; *worth, WORTH);
    }
}

// What the judge says of an input, where it serves so many cards in a hand. A refusal leaves the lent slices as they were.
fn judged_in(
    rt: &impl Abort,
    heap: Global,
    most: u8,
    bytes: &[u8],
    positions: &mut [u64],
    worths: &mut [u8],
) -> Result<String, Fail> {
    match judge_bytes(bytes, most, positions, worths) {
        Ok(judgement) => Ok(format!(in heap; "{}", Shown(judgement))?),
        Err(refusal) => {
            check_unwritten(rt, positions, worths);
            Ok(format!(in heap; "{}", Shown(refusal))?)
        }
    }
}

// The same of an input in words.
pub(crate) fn judged_lines(
    rt: &impl Abort,
    heap: Global,
    lent: &str,
    words: &str,
) -> Result<String, Fail> {
    let (most, _, keys, slots) = lent_of(heap, lent)?;
    let bytes = bytes_of(heap, words)?;
    let mut positions = [KEY; 64];
    let mut worths = [WORTH; 64];
    assert!(rt; keys <= 64 && slots <= 64);
    judged_in(
        rt,
        heap,
        most,
        &bytes,
        &mut positions[0..keys],
        &mut worths[0..slots],
    )
}

// What stands in the lent plays before.
fn mark() -> Play {
    Play {
        player: Player { seat: 2 },
        card: Card { number: 33 },
        taker: Some(Player { seat: 3 }),
    }
}

// Fails if a play was written to.
fn check_marks(rt: &impl Abort, plays: &[Play]) -> Result<(), Fail> {
    for play in plays {
        let Some(taker) = play.taker else {
            return Err(Fail::new("a play was written"));
        };
        assert_eq!(rt;
            (play.player.seat, play.card.number, taker.seat),
            (2, 33, 3)
        );
    }
    Ok(())
}

// The plays from an input on. A refusal leaves the lent plays as they were, and the positions too, unless it is of a card in the row.
fn played_in(
    rt: &impl Abort,
    heap: Global,
    most: u8,
    bytes: &[u8],
    plays: &mut [Play],
    positions: &mut [u64],
    worths: &mut [u8],
) -> Result<String, Fail> {
    match play_bytes(bytes, most, plays, positions, worths) {
        Ok(line) => {
            assert!(rt; line.plays <= plays.len());
            let (noted, rest) = plays.split_at(line.plays);
            check_marks(rt, rest)?;
            Ok(format!(in heap; "{}", Shown(noted))?)
        }
        Err(refusal) => {
            check_marks(rt, plays)?;
            if !matches!(refusal.number(), 7..=9) {
                check_unwritten(rt, positions, worths);
            }
            Ok(format!(in heap; "{}", Shown(refusal))?)
        }
    }
}

// The same of an input in words.
pub(crate) fn played_lines(
    rt: &impl Abort,
    heap: Global,
    lent: &str,
    words: &str,
) -> Result<String, Fail> {
    let (most, places, keys, slots) = lent_of(heap, lent)?;
    let bytes = bytes_of(heap, words)?;
    let mut plays = [mark(); 32];
    let mut positions = [KEY; 64];
    let mut worths = [WORTH; 64];
    assert!(rt; places <= 32 && keys <= 64 && slots <= 64);
    played_in(
        rt,
        heap,
        most,
        &bytes,
        &mut plays[0..places],
        &mut positions[0..keys],
        &mut worths[0..slots],
    )
}
