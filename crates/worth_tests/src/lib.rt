// Tests of the worth: tables whose worth is known.
#![tactic(auto)]

#[cfg(test)]
mod tests {
    use cards::reader::read_deal;
    use cards::room::Room;
    use std::test::Fail;
    use worth::call::worth;

    const ROOM: Room = Room {
        cards: 8,
        plays: 32,
        positions: 64,
        worths: 64,
    };

    // tables with their worth: trump and leader, and the hands from player 0 on
    const TABLES: [(&[u8], u8); 13] = [
        // none, 0: SA / SK / SQ / SJ
        (&[4, 0, 0, 1, 51, 1, 50, 1, 49, 1, 48], 1),
        // none, 0: S2 / SK / SQ / SJ
        (&[4, 0, 0, 1, 39, 1, 50, 1, 49, 1, 48], 0),
        // none, 0: S2 S3 / SK S4 / SA SQ / H2 H3
        (&[4, 0, 0, 2, 39, 40, 2, 50, 41, 2, 51, 49, 2, 26, 27], 2),
        // none, 0: S2 S3 / H2 H3 / SA SQ / SK S4
        (&[4, 0, 0, 2, 39, 40, 2, 26, 27, 2, 51, 49, 2, 50, 41], 1),
        // none, 1: SA SQ / SK S2 / H2 H3 / H4 H5
        (&[4, 1, 0, 2, 51, 49, 2, 50, 39, 2, 26, 27, 2, 28, 29], 2),
        // S, 0: S2 H2 / HA DA / S3 D2 / HK DK
        (&[3, 0, 0, 2, 39, 26, 2, 38, 25, 2, 40, 13, 2, 37, 24], 2),
        // none, 0: CA S3 D2 / SK SQ HA / SA SJ HK / D3 D4 D5
        (
            &[
                4, 0, 0, 3, 12, 40, 13, 3, 50, 49, 38, 3, 51, 48, 37, 3, 14, 15, 16,
            ],
            3,
        ),
        // none, 0: CA S3 D2 / D3 D4 D5 / SA SJ HK / SK SQ HA
        (
            &[
                4, 0, 0, 3, 12, 40, 13, 3, 14, 15, 16, 3, 51, 48, 37, 3, 50, 49, 38,
            ],
            2,
        ),
        // none, 0: SA S2 HA / SK SQ SJ / S3 S4 D2 / S5 S6 D3
        (
            &[
                4, 0, 0, 3, 51, 39, 38, 3, 50, 49, 48, 3, 40, 41, 13, 3, 42, 43, 14,
            ],
            2,
        ),
        // tables that errors about equal cards would take for another worth
        // a card on the table forgotten between two that look equal, it would be 1: none, 2, trick -: D3 D6 / CJ CQ / CK D5 / CA D2
        (&[4, 2, 0, 2, 14, 17, 2, 9, 10, 2, 11, 16, 2, 12, 13], 2),
        // equal over a card of the partner, it would be 2: H, 2, trick -: DK S7 SA / D7 S5 ST / D3 DT DA / D4 D9 SJ
        (
            &[
                2, 2, 0, 3, 24, 44, 51, 3, 18, 42, 47, 3, 14, 21, 25, 3, 15, 20, 48,
            ],
            3,
        ),
        // equal over a card of an opponent, it would be 1: none, 0, trick DJ: S7 SK / H9 S4 ST / C3 D4 H5 / C5 CQ SJ
        (
            &[
                4, 0, 1, 22, 2, 44, 50, 3, 33, 41, 47, 3, 1, 15, 29, 3, 3, 10, 48,
            ],
            2,
        ),
        // equal across two suits, it would be 1: D, 0, trick SK S5 S6: HT / DK / S4 / C4 D3
        (&[1, 0, 3, 50, 42, 43, 1, 34, 1, 24, 1, 41, 2, 2, 14], 0),
    ];

    // The worth of a deal; 9 where it is refused.
    fn worth_of(bytes: &[u8]) -> u8 {
        let Ok(deal) = read_deal(bytes, ROOM, 0) else {
            return 9;
        };
        // what the slices held before does not matter
        let mut positions = [7u64; 64];
        let mut worths = [7u8; 64];
        match worth(&deal.board, &mut positions, &mut worths) {
            Ok(tricks) => tricks,
            Err(_) => 9,
        }
    }

    #[test]
    fn tables(rt: HostRuntime) {
        for (bytes, tricks) in TABLES {
            assert_eq!(rt; worth_of(bytes), tricks);
        }
    }

    #[test]
    fn slices_that_cannot_be_used(rt: HostRuntime) -> Result<(), Fail> {
        let Ok(deal) = read_deal(&[4, 0, 0, 1, 51, 1, 50, 1, 49, 1, 48], ROOM, 0) else {
            return Err(Fail::new("refused"));
        };
        let mut positions = [7u64; 2];
        let mut worths = [7u8; 3];
        assert!(rt; matches!(worth(&deal.board, &mut positions, &mut worths), Err(_)));
        assert_eq!(rt; positions[0] + u64::from(worths[2]), 14);
        assert!(rt; matches!(worth(&deal.board, &mut [], &mut []), Err(_)));
        Ok(())
    }
}
