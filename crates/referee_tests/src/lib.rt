// Tests of the referee: rows that are taken, with who played and who took each trick, and each refusal at some of its places.
#![tactic(auto)]

#[cfg(test)]
mod tests {
    use cards::card::Card;
    use cards::player::Player;
    use cards::reader::read_deal;
    use cards::room::Room;
    use referee::row::{Play, play_row};
    use tricks::turn::turn;

    const AMPLE: Room = Room {
        cards: 8,
        plays: 32,
        positions: 1,
        worths: 1,
    };

    // in place of who took the trick, where a card ends none
    const NOBODY: u8 = 4;

    // no trump, and player 0 leads: SA C2, S2 S3, SK DA, HA S4
    const SPADES: [u8; 15] = [4, 0, 0, 2, 51, 0, 2, 39, 40, 2, 50, 25, 2, 38, 41];

    // clubs are trump, and player 1 leads: C9 D5, HA H2, C2 D3, HK D4
    const RUFFS: [u8; 15] = [0, 1, 0, 2, 7, 16, 2, 38, 26, 2, 0, 14, 2, 37, 15];

    // the same with no trump
    const DISCARDS: [u8; 15] = [4, 1, 0, 2, 7, 16, 2, 38, 26, 2, 0, 14, 2, 37, 15];

    // spades are trump; player 3 led SJ, under SA and SK, and player 2 has SQ
    const FOURTH: [u8; 11] = [3, 3, 3, 48, 51, 50, 0, 0, 1, 49, 0];

    // spades are trump; player 0 led H2, player 1 ruffed with S2, and they have C3, C7, D2 D3, S3 S4
    const RUFFED: [u8; 15] = [3, 0, 2, 26, 39, 1, 1, 1, 5, 2, 13, 14, 2, 40, 41];

    // deal, row and places of rows that are taken, with who is to play then, and the players and the takers of the plays
    const TAKEN: [(&[u8], &[u8], usize, u8, &[u8], &[u8]); 14] = [
        // no card, a card, and part of a trick: the next is to play
        (&SPADES, &[], 8, 0, &[], &[]),
        (&SPADES, &[0], 8, 1, &[0], &[4]),
        (&SPADES, &[51, 39, 50], 8, 3, &[0, 1, 2], &[4, 4, 4]),
        // a trick, whose taker leads
        (
            &SPADES,
            &[51, 39, 50, 41],
            8,
            0,
            &[0, 1, 2, 3],
            &[4, 4, 4, 0],
        ),
        // clubs are led, and the higher cards of other suits take nothing
        (
            &SPADES,
            &[0, 39, 50, 38, 51, 40],
            9,
            2,
            &[0, 1, 2, 3, 0, 1],
            &[4, 4, 4, 0, 4, 4],
        ),
        // to the last card
        (
            &SPADES,
            &[51, 39, 50, 41, 0, 40, 25, 38],
            8,
            0,
            &[0, 1, 2, 3, 0, 1, 2, 3],
            &[4, 4, 4, 0, 4, 4, 4, 0],
        ),
        // a ruff and an overruff
        (
            &RUFFS,
            &[38, 0, 37, 7, 16, 26, 14, 15],
            12,
            0,
            &[1, 2, 3, 0, 0, 1, 2, 3],
            &[4, 4, 4, 0, 4, 4, 4, 0],
        ),
        // a ruff, and who ruffed leads to another
        (
            &RUFFS,
            &[38, 0, 37, 16, 14, 15, 7, 26],
            8,
            0,
            &[1, 2, 3, 0, 2, 3, 0, 1],
            &[4, 4, 4, 2, 4, 4, 4, 0],
        ),
        // a discard, a ruff in the last seat, and one in the third
        (
            &RUFFS,
            &[38, 14, 37, 7, 16, 26, 0, 15],
            8,
            2,
            &[1, 2, 3, 0, 0, 1, 2, 3],
            &[4, 4, 4, 0, 4, 4, 4, 2],
        ),
        // with no trump the same cards take nothing
        (
            &DISCARDS,
            &[38, 0, 37, 7, 26, 14, 15, 16],
            8,
            1,
            &[1, 2, 3, 0, 1, 2, 3, 0],
            &[4, 4, 4, 1, 4, 4, 4, 1],
        ),
        // the two of hearts, led, loses to the king
        (
            &DISCARDS,
            &[26, 0, 37, 7, 15, 16],
            8,
            1,
            &[1, 2, 3, 0, 3, 0],
            &[4, 4, 4, 3, 4, 4],
        ),
        // a table with a trick begun
        (&FOURTH, &[], 1, 2, &[], &[]),
        (&FOURTH, &[49], 1, 0, &[2], &[0]),
        (
            &RUFFED,
            &[13, 40, 41, 1, 5, 14],
            6,
            3,
            &[2, 3, 3, 0, 1, 2],
            &[4, 3, 4, 4, 4, 3],
        ),
    ];

    // deal, row and places of rows that are refused, with the number and the place
    const REFUSED: [(&[u8], &[u8], usize, (u8, usize)); 22] = [
        // not held: no card, a card of another player, one that nobody has, and one that was played
        (&SPADES, &[52], 8, (7, 0)),
        (&SPADES, &[39], 8, (7, 0)),
        (&SPADES, &[51, 50], 8, (7, 1)),
        (&SPADES, &[51, 39, 50, 3], 8, (7, 3)),
        (&SPADES, &[51, 39, 50, 255], 8, (7, 3)),
        (&SPADES, &[51, 39, 50, 41, 51], 8, (7, 4)),
        (&RUFFS, &[38, 0, 37, 7, 26], 8, (7, 4)),
        (&FOURTH, &[50], 1, (7, 0)),
        // of another suit than the one led, and not held
        (&SPADES, &[51, 39, 38], 8, (7, 2)),
        // against the suit led: discards, in the last seat too, and a ruff of the two of diamonds
        (&SPADES, &[51, 39, 25], 8, (8, 2)),
        (&SPADES, &[51, 39, 50, 38], 8, (8, 3)),
        (&RUFFS, &[38, 0, 15], 8, (8, 2)),
        (
            &[2, 3, 1, 13, 2, 14, 26, 2, 0, 1, 2, 39, 40, 1, 27],
            &[26],
            7,
            (8, 0),
        ),
        // the first of two is told
        (&SPADES, &[51, 39, 25, 255], 8, (8, 2)),
        (&SPADES, &[51, 255, 25], 8, (7, 1)),
        // after the last trick
        (&RUFFS, &[38, 14, 37, 16, 26, 0, 15, 7, 7], 8, (9, 8)),
        (&RUFFS, &[38, 0, 37, 7, 16, 26, 14, 15, 0], 8, (9, 8)),
        (&FOURTH, &[49, 49], 1, (9, 1)),
        (&FOURTH, &[49, 255, 0], 1, (9, 1)),
        // too few places, also for a row that would need fewer or be refused
        (&SPADES, &[51], 7, (11, 1)),
        (&RUFFED, &[52], 5, (11, 1)),
        (&FOURTH, &[], 0, (11, 1)),
    ];

    // What stands in the lent slice before.
    fn mark() -> Play {
        Play {
            player: Player { seat: 2 },
            card: Card { number: 33 },
            taker: Some(Player { seat: 3 }),
        }
    }

    // A play by its player, card and taker.
    fn numbers(play: Play) -> (u8, u8, u8) {
        let taker = match play.taker {
            Some(player) => player.seat,
            None => NOBODY,
        };
        (play.player.seat, play.card.number, taker)
    }

    // What should stand at a place after a row that is taken: its play, or past its end what stood there before.
    fn wanted(row: &[u8], players: &[u8], takers: &[u8], place: usize) -> (u8, u8, u8) {
        if place < row.len() && place < players.len() && place < takers.len() {
            return (players[place], row[place], takers[place]);
        }
        numbers(mark())
    }

    // Plays a row of a deal with the first so many places of a slice: 0 and the player to play, or the number and the place of the refusal; 255 for a deal that is refused, or too few places.
    fn answer(bytes: &[u8], row: &[u8], places: usize, lent: &mut [Play]) -> (u8, usize) {
        let Ok(deal) = read_deal(bytes, AMPLE, 0) else {
            return (255, 0);
        };
        if places > lent.len() {
            return (255, 0);
        }
        match play_row(&deal.board, row, &mut lent[0..places]) {
            Ok(board) => (0, turn(&board).seat as usize),
            Err(refusal) => (refusal.number(), refusal.place()),
        }
    }

    #[test]
    fn rows_taken(rt: HostRuntime) {
        for (bytes, row, places, next, players, takers) in TAKEN {
            let mut lent = [mark(); 12];
            assert_eq!(rt; answer(bytes, row, places, &mut lent), (0, next as usize));
            for place in 0..12usize {
                assert_eq!(rt; numbers(lent[place]), wanted(row, players, takers, place));
            }
        }
    }

    #[test]
    fn rows_refused(rt: HostRuntime) {
        for (bytes, row, places, told) in REFUSED {
            let mut lent = [mark(); 12];
            assert_eq!(rt; answer(bytes, row, places, &mut lent), told);
            for place in 0..12usize {
                assert_eq!(rt; numbers(lent[place]), numbers(mark()));
            }
        }
    }
}
