// Tests of the reader: deals that are taken, and each refusal at each of its places.
#![tactic(auto)]

#[cfg(test)]
mod tests {
    use cards::reader::read_deal;
    use cards::room::Room;
    use std::test::Fail;

    // The number and the place of a refusal; 0 and the number of its bytes for a deal that is taken.
    fn answer(bytes: &[u8], room: Room) -> (u8, usize) {
        match read_deal(bytes, room, 0) {
            Ok(deal) => (0, deal.size),
            Err(refusal) => (refusal.number(), refusal.place()),
        }
    }

    // no trump, player 0 leads, and each has two cards of a suit of its own
    const GOOD: [u8; 15] = [4, 0, 0, 2, 0, 1, 2, 13, 14, 2, 26, 27, 2, 39, 40];

    // room for nine cards in a hand, one more than a deal in order has
    const AMPLE: Room = Room {
        cards: 9,
        plays: 36,
        positions: 1,
        worths: 1,
    };

    // deals with the answer to each
    const DEALS: [(&[u8], (u8, usize)); 33] = [
        // in order: what follows the deal is left, and the trick has none to three cards
        (&[4, 0, 0, 1, 0, 1, 13, 1, 26, 1, 39, 5, 200, 0], (0, 11)),
        (&[0, 3, 0, 1, 51, 1, 50, 1, 49, 1, 48], (0, 11)),
        (&[1, 3, 1, 48, 1, 51, 1, 50, 1, 49, 0], (0, 11)),
        (&[2, 3, 2, 48, 51, 0, 1, 50, 1, 49, 0], (0, 11)),
        (&[3, 3, 3, 48, 51, 50, 0, 0, 1, 49, 0], (0, 11)),
        // the head
        (&[], (3, 0)),
        (&[5], (1, 0)),
        (&[255, 9, 9], (1, 0)),
        (&[4, 4], (2, 1)),
        (&[4, 4, 4], (2, 1)),
        (&[4, 3, 4], (2, 2)),
        (&[4, 0, 0, 10], (11, 0)),
        // a card above 51, in the trick and in a hand
        (&[4, 0, 1, 52, 0, 1, 13, 1, 26, 1, 39], (4, 3)),
        (&[4, 0, 0, 1, 0, 1, 13, 1, 255, 1, 39], (4, 8)),
        // a card twice: in the trick, in the trick and a hand, in one hand, in two
        (&[4, 0, 2, 0, 0, 0, 0, 1, 26, 1, 39], (4, 4)),
        (&[4, 0, 1, 0, 0, 1, 13, 1, 26, 1, 0], (4, 10)),
        (&[4, 0, 0, 2, 0, 0, 2, 13, 14, 2, 26, 27, 2, 39, 40], (4, 5)),
        (&[4, 0, 0, 1, 0, 1, 13, 1, 26, 1, 13], (4, 10)),
        // and uneven too: the card is told
        (&[4, 0, 0, 1, 0, 2, 13, 13, 1, 26, 1, 39], (4, 7)),
        // hands with no card, with one more or one fewer than the leader's, with nine
        (&[4, 0, 0, 0, 0, 0, 0], (5, 3)),
        (&[4, 0, 0, 1, 0, 2, 13, 14, 1, 26, 1, 39], (5, 5)),
        (&[4, 2, 0, 1, 0, 1, 13, 2, 26, 27, 1, 39], (5, 3)),
        (&[4, 0, 0, 1, 0, 1, 13, 1, 26, 0], (5, 9)),
        (
            &[
                4, 0, 0, 9, 0, 1, 2, 3, 4, 5, 6, 7, 8, 9, 9, 10, 11, 12, 13, 14, 15, 16, 17, 9, 18,
                19, 20, 21, 22, 23, 24, 25, 26, 9, 27, 28, 29, 30, 31, 32, 33, 34, 35,
            ],
            (5, 3),
        ),
        // the card in the trick counts, of those who have played
        (&[4, 3, 1, 0, 1, 13, 1, 26, 1, 39, 1, 40], (5, 4)),
        (&[4, 0, 2, 0, 13, 0, 1, 5, 1, 26, 1, 27], (5, 6)),
        // clubs are led, and a hand with a club plays a diamond
        (&[4, 0, 2, 0, 13, 1, 1, 1, 5, 2, 26, 27, 2, 39, 40], (6, 4)),
        (&[4, 0, 3, 0, 13, 14, 1, 1, 1, 26, 1, 5, 2, 39, 40], (6, 5)),
        (&[4, 3, 2, 0, 13, 1, 5, 2, 26, 27, 2, 39, 40, 1, 1], (6, 4)),
        (&[4, 0, 3, 0, 13, 14, 1, 1, 1, 5, 1, 6, 2, 39, 40], (6, 4)),
        // the hand has a club no more, or follows: in order
        (
            &[4, 0, 2, 0, 13, 1, 1, 1, 26, 2, 27, 28, 2, 39, 40],
            (0, 15),
        ),
        (&[4, 0, 2, 0, 6, 1, 1, 1, 5, 2, 26, 27, 2, 39, 40], (0, 15)),
        (
            &[3, 0, 2, 26, 39, 1, 1, 1, 5, 2, 13, 14, 2, 40, 41],
            (0, 15),
        ),
    ];

    // rooms for the good deal, with the answer to each
    const ROOMS: [(Room, (u8, usize)); 6] = [
        (
            Room {
                cards: 1,
                plays: 7,
                positions: 0,
                worths: 0,
            },
            (11, 0),
        ),
        (
            Room {
                cards: 2,
                plays: 7,
                positions: 0,
                worths: 0,
            },
            (11, 1),
        ),
        (
            Room {
                cards: 2,
                plays: 8,
                positions: 0,
                worths: 0,
            },
            (11, 2),
        ),
        (
            Room {
                cards: 2,
                plays: 8,
                positions: 3,
                worths: 2,
            },
            (11, 2),
        ),
        (
            Room {
                cards: 2,
                plays: 8,
                positions: 2,
                worths: 3,
            },
            (11, 2),
        ),
        (
            Room {
                cards: 2,
                plays: 8,
                positions: 2,
                worths: 2,
            },
            (0, 15),
        ),
    ];

    #[test]
    fn deals(rt: HostRuntime) {
        for (bytes, told) in DEALS {
            assert_eq!(rt; answer(bytes, AMPLE), told);
        }
    }

    #[test]
    fn prefixes_end_too_early(rt: HostRuntime) {
        for size in 0..15usize {
            assert_eq!(rt; answer(&GOOD[0..size], AMPLE), (3, size));
        }
    }

    #[test]
    fn rooms(rt: HostRuntime) {
        for (room, told) in ROOMS {
            assert_eq!(rt; answer(&GOOD, room), told);
        }
    }

    #[test]
    fn a_table(rt: HostRuntime) -> Result<(), Fail> {
        let Ok(deal) = read_deal(&[3, 3, 3, 48, 51, 50, 0, 0, 1, 49, 0], AMPLE, 0) else {
            return Err(Fail::new("refused"));
        };
        let second = deal.board.trick[1];
        let third = deal.board.hands[2];
        assert_eq!(rt; deal.board.leader.seat, 3);
        assert_eq!(rt; deal.board.played, 3);
        assert_eq!(rt; second.number, 51);
        assert_eq!(rt; third.bits, 1 << 49);
        Ok(())
    }
}
