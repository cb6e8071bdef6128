// Tests of the cards that are as good as each other: deals, with the lowest of them.
#![tactic(auto)]

#[cfg(test)]
mod tests {
    use cards::card::Card;
    use cards::hand::Hand;
    use cards::reader::read_deal;
    use cards::room::Room;
    use equals::lowest::{is_lowest, lowest_equals};
    use std::test::Fail;

    // room for eight cards in a hand
    const AMPLE: Room = Room {
        cards: 8,
        plays: 32,
        positions: 1,
        worths: 1,
    };

    // deals, with the numbers of the cards to try
    const DEALS: [(&[u8], &[u8]); 16] = [
        // a row of three, and a card of another suit
        (
            &[
                4, 0, 0, 4, 0, 1, 2, 13, 4, 26, 27, 28, 29, 4, 39, 40, 41, 42, 4, 30, 31, 32, 33,
            ],
            &[0, 13],
        ),
        // the cards between are gone
        (
            &[
                4, 0, 0, 4, 0, 2, 5, 20, 4, 26, 27, 28, 29, 4, 39, 40, 41, 42, 4, 30, 31, 32, 33,
            ],
            &[0, 20],
        ),
        // a row over a gone card, and a card past one of an opponent
        (
            &[
                4, 0, 0, 4, 0, 2, 3, 7, 4, 5, 26, 27, 28, 4, 39, 40, 41, 42, 4, 30, 31, 32, 33,
            ],
            &[0, 7],
        ),
        // the card between is the next player's, the partner's, the last player's
        (&[4, 0, 0, 2, 0, 2, 2, 1, 26, 2, 39, 40, 2, 28, 29], &[0, 2]),
        (&[4, 0, 0, 2, 0, 2, 2, 26, 27, 2, 1, 39, 2, 28, 29], &[0, 2]),
        (&[4, 0, 0, 2, 0, 2, 2, 26, 27, 2, 39, 40, 2, 1, 28], &[0, 2]),
        // the ace of clubs and the two of diamonds
        (
            &[4, 0, 0, 2, 12, 13, 2, 26, 27, 2, 39, 40, 2, 28, 29],
            &[12, 13],
        ),
        // cards on the table, one to three
        (&[4, 3, 1, 1, 2, 0, 2, 2, 26, 27, 2, 39, 40, 1, 30], &[0, 2]),
        (
            &[
                4, 2, 2, 5, 1, 4, 0, 2, 4, 6, 4, 26, 27, 28, 29, 3, 39, 40, 41, 3, 30, 31, 32,
            ],
            &[0, 2, 6],
        ),
        (
            &[
                4, 1, 3, 1, 3, 5, 4, 0, 2, 4, 6, 3, 26, 27, 28, 3, 39, 40, 41, 3, 30, 31, 32,
            ],
            &[0, 2, 4, 6],
        ),
        // clubs are led: only they may be played; or the hand has none
        (
            &[
                4, 3, 1, 12, 4, 0, 1, 13, 15, 4, 26, 27, 28, 29, 4, 39, 40, 41, 42, 3, 30, 31, 32,
            ],
            &[0],
        ),
        (
            &[
                4, 3, 1, 12, 4, 13, 14, 26, 28, 4, 27, 29, 30, 31, 4, 39, 40, 41, 42, 3, 43, 44, 45,
            ],
            &[13, 26, 28],
        ),
        // other players are to play: past the partner's card, and past an opponent's
        (&[4, 1, 0, 2, 0, 1, 2, 40, 42, 2, 2, 3, 2, 4, 41], &[40, 42]),
        (&[3, 2, 0, 2, 0, 41, 2, 1, 2, 2, 40, 42, 2, 3, 4], &[40, 42]),
        (
            &[0, 3, 0, 3, 41, 0, 1, 3, 2, 3, 4, 3, 5, 6, 7, 3, 40, 42, 43],
            &[40, 42],
        ),
        // a card of the last player above the row does not count
        (
            &[
                4, 0, 0, 3, 8, 9, 11, 3, 10, 26, 27, 3, 39, 40, 41, 3, 12, 30, 31,
            ],
            &[8, 11],
        ),
    ];

    // The set of the cards with these numbers.
    fn set_of(numbers: &[u8]) -> Hand {
        let mut set = Hand::empty();
        for number in numbers {
            if let Ok(card) = Card::try_from(*number) {
                set = set.with(card);
            }
        }
        set
    }

    #[test]
    fn lowest_of_deals(rt: HostRuntime) -> Result<(), Fail> {
        for (bytes, told) in DEALS {
            let Ok(deal) = read_deal(bytes, AMPLE, 0) else {
                return Err(Fail::new("refused"));
            };
            assert_eq!(rt; lowest_equals(&deal.board).bits, set_of(told).bits);
        }
        Ok(())
    }

    #[test]
    fn each_card_of_deals(rt: HostRuntime) -> Result<(), Fail> {
        for (bytes, told) in DEALS {
            let Ok(deal) = read_deal(bytes, AMPLE, 0) else {
                return Err(Fail::new("refused"));
            };
            for number in 0..52u8 {
                let card = Card { number };
                assert_eq!(rt; is_lowest(&deal.board, card), set_of(told).holds(card));
            }
        }
        Ok(())
    }
}
