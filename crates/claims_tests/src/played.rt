// Cases of playing on, in the form of those of judging. After the deal come the side that goes by advice, and the other side's cards.

// rows that are played
pub(crate) const PLAYED: [&str; 46] = [
    // our side by advice, to the end
    "5 | 4 0 0  1 SA  1 SK  1 SQ  1 SJ  0 SK SJ | 0: SA\n1: SK\n2: SQ\n3: SJ\n1 trick: 0",
    "5 | 4 0 0  2 S2 S3  2 SK S4  2 SA SQ  2 H2 H3  0 SK H2 H3 S4 | 0: S2\n1: SK\n2: SA\n3: H2\n1 trick: 2\n2: SQ\n3: H3\n0: S3\n1: S4\n2 trick: 2",
    "5 | 4 1 0  2 SA SQ  2 SK S2  2 H2 H3  2 H4 H5  0 S2 H5 SK H4 | 1: S2\n2: H2\n3: H5\n0: SQ\n1 trick: 0\n0: SA\n1: SK\n2: H3\n3: H4\n2 trick: 0",
    "5 | 3 0 0  2 S2 H2  2 HA DA  2 S3 D2  2 HK DK  0 HA HK DK DA | 0: H2\n1: HA\n2: S3\n3: HK\n1 trick: 2\n2: D2\n3: DK\n0: S2\n1: DA\n2 trick: 0",
    "5 | 4 0 0  3 CA S3 D2  3 SK SQ HA  3 SA SJ HK  3 D3 D4 D5  0 SK D5 SQ D3 D4 HA | 0: CA\n1: SK\n2: HK\n3: D5\n1 trick: 0\n0: S3\n1: SQ\n2: SA\n3: D3\n2 trick: 2\n2: SJ\n3: D4\n0: D2\n1: HA\n3 trick: 2",
    "5 | 4 0 0  3 CA S3 D2  3 SK SQ HA  3 SA SJ HK  3 D3 D4 D5  0 SQ D5 SK D4 D3 HA | 0: CA\n1: SQ\n2: HK\n3: D5\n1 trick: 0\n0: S3\n1: SK\n2: SA\n3: D4\n2 trick: 2\n2: SJ\n3: D3\n0: D2\n1: HA\n3 trick: 2",
    "5 | 4 0 0  3 CA S3 D2  3 SK SQ HA  3 SA SJ HK  3 D3 D4 D5  0 HA D3 SQ D4 D5 SK | 0: CA\n1: HA\n2: SJ\n3: D3\n1 trick: 0\n0: S3\n1: SQ\n2: SA\n3: D4\n2 trick: 2\n2: HK\n3: D5\n0: D2\n1: SK\n3 trick: 2",
    "5 | 4 0 0  3 CA S3 D2  3 D3 D4 D5  3 SA SJ HK  3 SK SQ HA  0 D3 HA D4 SK SQ D5 | 0: CA\n1: D3\n2: HK\n3: HA\n1 trick: 0\n0: S3\n1: D4\n2: SJ\n3: SK\n2 trick: 3\n3: SQ\n0: D2\n1: D5\n2: SA\n3 trick: 2",
    "5 | 4 0 0  3 SA S2 HA  3 SK SQ SJ  3 S3 S4 D2  3 S5 S6 D3  0 SQ S6 SJ S5 SK D3 | 0: HA\n1: SQ\n2: D2\n3: S6\n1 trick: 0\n0: S2\n1: SJ\n2: S3\n3: S5\n2 trick: 1\n1: SK\n2: S4\n3: D3\n0: SA\n3 trick: 0",
    // the others by advice
    "5 | 4 0 0  1 SA  1 SK  1 SQ  1 SJ  1 SA SQ | 0: SA\n1: SK\n2: SQ\n3: SJ\n1 trick: 0",
    "5 | 4 0 0  1 S2  1 SK  1 SQ  1 SJ  1 S2 SQ | 0: S2\n1: SK\n2: SQ\n3: SJ\n1 trick: 1",
    "5 | 4 0 0  2 S2 S3  2 H2 H3  2 SA SQ  2 SK S4  1 S3 SA SQ S2 | 0: S3\n1: H2\n2: SA\n3: S4\n1 trick: 2\n2: SQ\n3: SK\n0: S2\n1: H3\n2 trick: 3",
    "5 | 3 0 0  2 S2 H2  2 HA DA  2 S3 D2  2 HK DK  1 S2 S3 D2 H2 | 0: S2\n1: DA\n2: S3\n3: HK\n1 trick: 2\n2: D2\n3: DK\n0: H2\n1: HA\n2 trick: 3",
    "5 | 4 0 0  3 CA S3 D2  3 SK SQ HA  3 SA SJ HK  3 D3 D4 D5  1 D2 SJ S3 SA CA HK | 0: D2\n1: HA\n2: SJ\n3: D3\n1 trick: 3\n3: D4\n0: S3\n1: SQ\n2: SA\n2 trick: 3\n3: D5\n0: CA\n1: SK\n2: HK\n3 trick: 3",
    "5 | 4 0 0  3 CA S3 D2  3 SK SQ HA  3 SA SJ HK  3 D3 D4 D5  1 S3 SJ HK CA SA D2 | 0: S3\n1: SQ\n2: SJ\n3: D3\n1 trick: 1\n1: HA\n2: HK\n3: D4\n0: CA\n2 trick: 1\n1: SK\n2: SA\n3: D5\n0: D2\n3 trick: 2",
    "5 | 4 0 0  3 CA S3 D2  3 D3 D4 D5  3 SA SJ HK  3 SK SQ HA  1 CA HK S3 SJ D2 SA | 0: CA\n1: D3\n2: HK\n3: HA\n1 trick: 0\n0: S3\n1: D4\n2: SJ\n3: SQ\n2 trick: 3\n3: SK\n0: D2\n1: D5\n2: SA\n3 trick: 2",
    "5 | 4 0 0  3 CA S3 D2  3 D3 D4 D5  3 SA SJ HK  3 SK SQ HA  1 D2 HK SA S3 SJ CA | 0: D2\n1: D3\n2: HK\n3: HA\n1 trick: 1\n1: D4\n2: SA\n3: SQ\n0: S3\n2 trick: 1\n1: D5\n2: SJ\n3: SK\n0: CA\n3 trick: 1",
    // a row that ends early: within a trick, after one, before the side's own cards
    "5 | 4 0 0  3 CA S3 D2  3 SK SQ HA  3 SA SJ HK  3 D3 D4 D5  0 SQ | 0: CA\n1: SQ\n2: HK",
    "5 | 4 0 0  3 CA S3 D2  3 SK SQ HA  3 SA SJ HK  3 D3 D4 D5  0 SQ D3 | 0: CA\n1: SQ\n2: HK\n3: D3\n1 trick: 0\n0: S3",
    "5 | 4 0 0  3 CA S3 D2  3 SK SQ HA  3 SA SJ HK  3 D3 D4 D5  0 SQ D3 SK | 0: CA\n1: SQ\n2: HK\n3: D3\n1 trick: 0\n0: S3\n1: SK\n2: SA",
    "5 | 4 0 0  3 CA S3 D2  3 SK SQ HA  3 SA SJ HK  3 D3 D4 D5  1 CA | 0: CA\n1: HA",
    "5 | 4 0 0  3 CA S3 D2  3 SK SQ HA  3 SA SJ HK  3 D3 D4 D5  1 CA HK | 0: CA\n1: HA\n2: HK\n3: D3\n1 trick: 0",
    "5 | 4 0 0  3 CA S3 D2  3 SK SQ HA  3 SA SJ HK  3 D3 D4 D5  1 CA HK S3 | 0: CA\n1: HA\n2: HK\n3: D3\n1 trick: 0\n0: S3\n1: SQ",
    "5 | 4 1 0  2 SA SQ  2 SK S2  2 H2 H3  2 H4 H5  0 S2 | 1: S2\n2: H2",
    // an empty row: the side plays until it is the other's turn, or not at all
    "5 | 4 0 0  1 SA  1 SK  1 SQ  1 SJ  0 | 0: SA",
    "5 | 4 0 0  1 SA  1 SK  1 SQ  1 SJ  1 | ",
    "5 | 4 1 0  2 SA SQ  2 SK S2  2 H2 H3  2 H4 H5  0 | ",
    "5 | 4 1 0  2 SA SQ  2 SK S2  2 H2 H3  2 H4 H5  1 | 1: S2",
    "5 | 4 0 0  3 CA S3 D2  3 SK SQ HA  3 SA SJ HK  3 D3 D4 D5  0 | 0: CA",
    "5 | 4 0 0  3 CA S3 D2  3 SK SQ HA  3 SA SJ HK  3 D3 D4 D5  1 | ",
    // a trick begun: the cards that lie have no line, and it is the first trick
    "5 | 4 0 1 SQ  2 H4 H6  3 S4 SJ SA  3 H2 HA S6  3 H9 HQ S8  1 S6 H2 H6 HA H4 | 1: SA\n2: S6\n3: S8\n1 trick: 1\n1: S4\n2: H2\n3: H9\n0: H6\n2 trick: 1\n1: SJ\n2: HA\n3: HQ\n0: H4\n3 trick: 1",
    "5 | 4 0 1 SQ  2 H4 H6  3 S4 SJ SA  3 H2 HA S6  3 H9 HQ S8  0 SA S8 | 1: SA\n2: S6\n3: S8\n1 trick: 1",
    "5 | 4 0 1 SQ  2 H4 H6  3 S4 SJ SA  3 H2 HA S6  3 H9 HQ S8  0 | ",
    "5 | 2 0 2 CJ D8  2 DJ SA  2 H8 HJ  3 D7 H4 H9  3 CA DQ HT  0 CA DQ HJ H8 HT | 2: H4\n3: CA\n1 trick: 2\n2: D7\n3: DQ\n0: DJ\n1: HJ\n2 trick: 1\n1: H8\n2: H9\n3: HT\n0: SA\n3 trick: 3",
    "5 | 2 0 2 CJ D8  2 DJ SA  2 H8 HJ  3 D7 H4 H9  3 CA DQ HT  1 | ",
    "5 | 1 0 3 C6 C4 H3  2 D9 S3  2 D7 HK  2 D2 SQ  3 C2 CT S9  1 D9 SQ S3 D2 | 3: CT\n1 trick: 3\n3: C2\n0: D9\n1: HK\n2: SQ\n2 trick: 0\n0: S3\n1: D7\n2: D2\n3: S9\n3 trick: 1",
    "5 | 1 1 1 ST  3 HA S3 SK  2 CJ D7  3 DK H6 HK  3 C9 S2 SQ  0 SQ CJ S2 D7 C9 | 2: H6\n3: SQ\n0: SK\n1 trick: 0\n0: S3\n1: CJ\n2: HK\n3: S2\n2 trick: 0\n0: HA\n1: D7\n2: DK\n3: C9\n3 trick: 2",
    "5 | 3 1 2 SQ HT  3 C4 S5 S7  2 D5 H3  2 D4 D6  3 C8 D3 H8  1 S5 D4 S7 C4 D6 | 3: D3\n0: S5\n1 trick: 1\n1: H3\n2: D4\n3: H8\n0: S7\n2 trick: 0\n0: C4\n1: D5\n2: D6\n3: C8\n3 trick: 3",
    "5 | 4 1 3 DK D5 D3  3 CA H4 S2  2 H2 H3  2 C9 HK  2 C3 CQ  0 H3 CQ C3 H2 | 0: H4\n1 trick: 1\n1: H3\n2: HK\n3: CQ\n0: CA\n2 trick: 2\n2: C9\n3: C3\n0: S2\n1: H2\n3 trick: 2",
    "5 | 4 3 3 H4 CJ H6  2 DJ DK  2 DQ H2  3 H3 HT HA  2 D8 DT  1 H3 HA DJ HT DK | 2: H3\n1 trick: 1\n1: DQ\n2: HA\n3: D8\n0: DJ\n2 trick: 1\n1: H2\n2: HT\n3: DT\n0: DK\n3 trick: 2",
    "5 | 4 0 3 SA SK SQ  0  0  0  1 SJ  1 | 3: SJ\n1 trick: 0",
    "5 | 4 0 3 SA SK SQ  0  0  0  1 SJ  0 | ",
    "5 | 4 0 3 SA SK SQ  0  0  0  1 SJ  0 SJ | 3: SJ\n1 trick: 0",
    // the side takes the trick before the other has a turn, and leads
    "5 | 4 1 3 S7 S4 C9  3 CQ S8 SA  2 CA H8  2 CT S9  2 H2 HK  0 | 0: S8\n1 trick: 0\n0: SA",
    "5 | 4 0 3 C5 H8 SK  2 C6 S4  2 H2 ST  2 HJ SJ  3 C3 C9 HQ  1 S4 | 3: C9\n1 trick: 3\n3: HQ\n0: S4\n1: H2",
    // eight cards in each hand
    "8 | 4 1 0  8 CA CK CQ CJ CT C9 C8 C7  8 DA DK DQ DJ DT D9 D8 D7  8 HA HK HQ HJ HT H9 H8 H7  8 SA SK SQ SJ ST S9 S8 S7  1 H7 C7 H8 C8 H9 C9 HT CT HJ CJ HQ CQ HK CK HA CA | 1: D7\n2: H7\n3: S7\n0: C7\n1 trick: 1\n1: D8\n2: H8\n3: S8\n0: C8\n2 trick: 1\n1: D9\n2: H9\n3: S9\n0: C9\n3 trick: 1\n1: DT\n2: HT\n3: ST\n0: CT\n4 trick: 1\n1: DJ\n2: HJ\n3: SJ\n0: CJ\n5 trick: 1\n1: DQ\n2: HQ\n3: SQ\n0: CQ\n6 trick: 1\n1: DK\n2: HK\n3: SK\n0: CK\n7 trick: 1\n1: DA\n2: HA\n3: SA\n0: CA\n8 trick: 1",
];

// inputs that are refused
pub(crate) const UNPLAYED: [&str; 51] = [
    // the deal, by the same checks as for judging; here nothing stands after it but the side and the row
    "5 | 5 0 0  1 SA  1 SK  1 SQ  1 SJ  0 SK SJ | refused 1 at 0",
    "5 | 4 4 4  1 SA  1 SK  1 SQ  1 SJ  0 SK SJ | refused 2 at 1",
    "5 | 4 0 4  1 SA  1 SK  1 SQ  1 SJ  0 SK SJ | refused 2 at 2",
    "2 | 4 0 0  3 CA S3 D2  3 SK SQ HA  3 SA SJ HK  3 D3 D4 D5  0 SQ D3 | refused 11 at 0",
    "8 | 4 0 0  9 C2 C3 C4 C5 C6 C7 C8 C9 CT  9 D2 D3 D4 D5 D6 D7 D8 D9 DT  9 H2 H3 H4 H5 H6 H7 H8 H9 HT  9 S2 S3 S4 S5 S6 S7 S8 S9 ST  0 | refused 11 at 0",
    "5 |  | refused 3 at 0",
    "5 | 4 | refused 3 at 1",
    "5 | 4 0 0 | refused 3 at 3",
    "5 | 4 0 0  1 SA  1 SK  1 SQ  1 | refused 3 at 10",
    "5 | 5 | refused 1 at 0",
    "5 | 4 0 0  1 52  1 SK  1 SQ  1 SJ  0 | refused 4 at 4",
    "5 | 4 0 0  1 SA  1 SK  1 SQ  1 SA  0 | refused 4 at 10",
    "5 | 4 0 0  1 SA  2 SK S2  1 SQ  1 SJ  0 | refused 5 at 5",
    "5 | 4 0 0  0  0  0  0  0 | refused 5 at 3",
    "5 | 4 0 2 H2 S2  1 C2  1 H3  2 C3 C4  2 C5 C6  0 | refused 6 at 4",
    // the side's byte is missing
    "5 | 4 0 0  1 SA  1 SK  1 SQ  1 SJ | refused 3 at 11",
    "5 | 4 0 0  3 CA S3 D2  3 SK SQ HA  3 SA SJ HK  3 D3 D4 D5 | refused 3 at 19",
    "5 | 4 0 3 SA SK SQ  0  0  0  1 SJ | refused 3 at 11",
    // and told before a card that is there twice, and before hands without cards
    "5 | 4 0 0  1 SA  1 SK  1 SQ  1 SA | refused 3 at 11",
    "5 | 0 0 0  0  0  0  0 | refused 3 at 7",
    // a side that is none, before the row is looked at
    "5 | 4 0 0  1 SA  1 SK  1 SQ  1 SJ  2 | refused 10 at 0",
    "5 | 4 0 0  1 SA  1 SK  1 SQ  1 SJ  2 SK SJ | refused 10 at 0",
    "5 | 4 0 0  1 SA  1 SK  1 SQ  1 SJ  255 99 99 | refused 10 at 0",
    "5 | 4 0 0  3 CA S3 D2  3 SK SQ HA  3 SA SJ HK  3 D3 D4 D5  3 D3 | refused 10 at 0",
    // not held: of a player not to play, of the side's own, of nobody, played before, no card
    "5 | 4 0 0  3 CA S3 D2  3 SK SQ HA  3 SA SJ HK  3 D3 D4 D5  0 D3 | refused 7 at 0",
    "5 | 4 0 0  3 CA S3 D2  3 SK SQ HA  3 SA SJ HK  3 D3 D4 D5  0 CA | refused 7 at 0",
    "5 | 4 0 0  3 CA S3 D2  3 SK SQ HA  3 SA SJ HK  3 D3 D4 D5  0 SQ SA | refused 7 at 1",
    "5 | 4 0 0  3 CA S3 D2  3 SK SQ HA  3 SA SJ HK  3 D3 D4 D5  0 SQ D3 SQ | refused 7 at 2",
    "5 | 4 0 0  3 CA S3 D2  3 SK SQ HA  3 SA SJ HK  3 D3 D4 D5  0 SQ D3 C2 | refused 7 at 2",
    "5 | 4 0 0  3 CA S3 D2  3 SK SQ HA  3 SA SJ HK  3 D3 D4 D5  1 D3 | refused 7 at 0",
    "5 | 4 0 0  3 CA S3 D2  3 SK SQ HA  3 SA SJ HK  3 D3 D4 D5  1 CA S3 | refused 7 at 1",
    "5 | 4 0 0  3 CA S3 D2  3 SK SQ HA  3 SA SJ HK  3 D3 D4 D5  0 52 | refused 7 at 0",
    "5 | 4 0 0  3 CA S3 D2  3 SK SQ HA  3 SA SJ HK  3 D3 D4 D5  0 SQ 255 | refused 7 at 1",
    "5 | 4 1 0  2 SA SQ  2 SK S2  2 H2 H3  2 H4 H5  0 SA | refused 7 at 0",
    // against the suit led
    "5 | 4 0 0  3 CA S3 D2  3 SK SQ HA  3 SA SJ HK  3 D3 D4 D5  0 SQ D3 HA | refused 8 at 2",
    "5 | 4 0 0  3 SA S2 HA  3 SK SQ SJ  3 S3 S4 D2  3 S5 S6 D3  0 SJ S5 SQ D3 | refused 8 at 3",
    "5 | 3 0 0  2 S2 H2  2 HA DA  2 S3 D2  2 HK DK  0 HA DK | refused 8 at 1",
    "5 | 4 0 0  3 CA S3 D2  3 SK SQ HA  3 SA SJ HK  3 D3 D4 D5  1 S3 HK | refused 8 at 1",
    "5 | 4 0 1 SQ  2 H4 H6  3 S4 SJ SA  3 H2 HA S6  3 H9 HQ S8  1 HA | refused 8 at 0",
    // after the last trick
    "5 | 4 0 0  1 SA  1 SK  1 SQ  1 SJ  0 SK SJ SK | refused 9 at 2",
    "5 | 4 0 0  1 SA  1 SK  1 SQ  1 SJ  0 SK SJ 255 | refused 9 at 2",
    "5 | 4 0 0  1 SA  1 SK  1 SQ  1 SJ  1 SA SQ SA C2 | refused 9 at 2",
    "5 | 4 0 0  3 CA S3 D2  3 SK SQ HA  3 SA SJ HK  3 D3 D4 D5  0 SK D5 SQ D3 D4 HA HA | refused 9 at 6",
    "5 | 4 0 0  3 CA S3 D2  3 SK SQ HA  3 SA SJ HK  3 D3 D4 D5  1 D2 SJ S3 SA CA HK D2 | refused 9 at 6",
    "5 | 4 0 3 SA SK SQ  0  0  0  1 SJ  1 SJ | refused 9 at 0",
    "5 | 4 0 3 SA SK SQ  0  0  0  1 SJ  0 SJ SJ | refused 9 at 1",
    // the first of two wrongs is told
    "5 | 4 0 0  1 SA  1 SK  1 SQ  1 SA  2 SK | refused 4 at 10",
    "5 | 4 0 0  1 SA  1 SK  1 SQ  1 SJ  2 SK SJ SK | refused 10 at 0",
    "5 | 4 0 0  3 CA S3 D2  3 SK SQ HA  3 SA SJ HK  3 D3 D4 D5  0 SQ SA 52 | refused 7 at 1",
    "5 | 4 0 0  3 SA S2 HA  3 SK SQ SJ  3 S3 S4 D2  3 S5 S6 D3  0 SJ S5 SQ D3 52 | refused 8 at 3",
    "5 | 4 0 0  1 SA  1 SK  1 SQ  1 SJ  0 S2 SJ SJ SJ | refused 7 at 0",
];

// lent memory that is just long enough, or too short
pub(crate) const PLACES: [&str; 11] = [
    "5 4 1 1 | 4 0 0  1 S2  1 SK  1 SQ  1 SJ  0 SK SJ | 0: S2\n1: SK\n2: SQ\n3: SJ\n1 trick: 1",
    "5 3 1 1 | 4 0 0  1 S2  1 SK  1 SQ  1 SJ  0 SK SJ | refused 11 at 1",
    "5 0 1 1 | 4 0 0  1 S2  1 SK  1 SQ  1 SJ  0 | refused 11 at 1",
    "5 4 0 0 | 4 0 0  1 S2  1 SK  1 SQ  1 SJ  0 SK SJ | refused 11 at 2",
    "5 4 2 1 | 4 0 0  1 S2  1 SK  1 SQ  1 SJ  0 SK SJ | refused 11 at 2",
    "5 0 0 0 | 4 0 0  1 S2  1 SK  1 SQ  1 SJ  0 SK SJ | refused 11 at 1",
    // four for each card of the largest hand, whatever lies on the table
    "5 4 1 1 | 4 0 3 SA SK SQ  0  0  0  1 SJ  1 | 3: SJ\n1 trick: 0",
    "5 3 1 1 | 4 0 3 SA SK SQ  0  0  0  1 SJ  1 | refused 11 at 1",
    // and another wrong: after the head and the hands, before all else
    "5 0 0 0 | 4 4 0  1 S2  1 SK  1 SQ  1 SJ  0 | refused 2 at 1",
    "5 3 0 0 | 4 0 0  6 | refused 11 at 0",
    "5 3 1 1 | 4 0 0  1 S2  1 SK  1 S2  1 SJ | refused 11 at 1",
];
