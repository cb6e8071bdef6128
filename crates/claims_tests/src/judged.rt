// Cases of judging. A case is what is served and lent, the input in words, and the lines of the answer.
//
// First stands the most cards in a hand that are served, and after it, where that matters, the number of places for plays and the lengths of the two slices for positions that are lent.
//
// A word of an input is a card in letters, as `CA`, or a byte as a number. It begins with trump, the leader, the number of cards in the trick and these cards; then come for each player the number of its cards and the cards; then a row of cards; last the side that claims, and its tricks.

// the tricks left of a deal, how many of them are ours, and the deal
pub(crate) const WORTHS: [(u8, u8, &str); 25] = [
    (1, 1, "4 0 0  1 SA  1 SK  1 SQ  1 SJ"),
    (1, 0, "4 0 0  1 S2  1 SK  1 SQ  1 SJ"),
    (2, 2, "4 0 0  2 S2 S3  2 SK S4  2 SA SQ  2 H2 H3"),
    (2, 1, "4 0 0  2 S2 S3  2 H2 H3  2 SA SQ  2 SK S4"),
    (2, 2, "4 1 0  2 SA SQ  2 SK S2  2 H2 H3  2 H4 H5"),
    (2, 2, "3 0 0  2 S2 H2  2 HA DA  2 S3 D2  2 HK DK"),
    (
        3,
        3,
        "4 0 0  3 CA S3 D2  3 SK SQ HA  3 SA SJ HK  3 D3 D4 D5",
    ),
    (
        3,
        2,
        "4 0 0  3 CA S3 D2  3 D3 D4 D5  3 SA SJ HK  3 SK SQ HA",
    ),
    (
        3,
        2,
        "4 0 0  3 SA S2 HA  3 SK SQ SJ  3 S3 S4 D2  3 S5 S6 D3",
    ),
    // tables that errors about equal cards would take for another worth
    (2, 2, "4 2 0  2 D3 D6  2 CJ CQ  2 CK D5  2 CA D2"),
    (
        3,
        3,
        "2 2 0  3 DK S7 SA  3 D7 S5 ST  3 D3 DT DA  3 D4 D9 SJ",
    ),
    (
        3,
        2,
        "4 0 1 DJ  2 S7 SK  3 H9 S4 ST  3 C3 D4 H5  3 C5 CQ SJ",
    ),
    (2, 0, "1 0 3 SK S5 S6  1 HT  1 DK  1 S4  2 C4 D3"),
    // a trick begun, and each player to play
    (
        3,
        0,
        "4 0 1 SQ  2 H4 H6  3 S4 SJ SA  3 H2 HA S6  3 H9 HQ S8",
    ),
    (
        3,
        2,
        "1 1 1 ST  3 HA S3 SK  2 CJ D7  3 DK H6 HK  3 C9 S2 SQ",
    ),
    (
        3,
        0,
        "0 2 1 D6  3 C6 D2 HT  3 C4 C9 D3  2 HQ HA  3 CQ D4 DQ",
    ),
    (
        3,
        3,
        "4 3 1 CQ  3 CT CA DJ  3 C7 D9 DT  3 CJ D5 DA  2 C2 C6",
    ),
    (
        3,
        1,
        "2 0 2 CJ D8  2 DJ SA  2 H8 HJ  3 D7 H4 H9  3 CA DQ HT",
    ),
    (
        3,
        1,
        "3 1 2 SQ HT  3 C4 S5 S7  2 D5 H3  2 D4 D6  3 C8 D3 H8",
    ),
    (
        3,
        3,
        "4 2 2 H8 H9  3 DK H5 HK  3 D6 D9 DQ  2 H3 H6  2 D2 DA",
    ),
    (
        3,
        1,
        "4 3 2 S4 C3  2 C7 CT  3 S5 ST SA  3 CK S3 SJ  2 C2 SQ",
    ),
    (
        3,
        1,
        "1 0 3 C6 C4 H3  2 D9 S3  2 D7 HK  2 D2 SQ  3 C2 CT S9",
    ),
    (
        3,
        2,
        "4 1 3 DK D5 D3  3 CA H4 S2  2 H2 H3  2 C9 HK  2 C3 CQ",
    ),
    (
        3,
        0,
        "4 2 3 H7 S7 HQ  2 C5 S9  3 CK H8 HK  2 C6 C7  2 S8 SK",
    ),
    (
        3,
        3,
        "4 3 3 H4 CJ H6  2 DJ DK  2 DQ H2  3 H3 HT HA  2 D8 DT",
    ),
];

// tables whose worth is known, with claims of both sides
pub(crate) const WORKED: [&str; 35] = [
    // one trick: the ace takes it, and the two does not
    "5 | 4 0 0  1 SA  1 SK  1 SQ  1 SJ  0 1 | worth 1\nupheld\ncard SA",
    "5 | 4 0 0  1 SA  1 SK  1 SQ  1 SJ  1 1 | worth 1\nnot upheld\ncard SA",
    "5 | 4 0 0  1 SA  1 SK  1 SQ  1 SJ  1 0 | worth 1\nupheld\ncard SA",
    "5 | 4 0 0  1 S2  1 SK  1 SQ  1 SJ  0 1 | worth 0\nnot upheld\nS2: SK",
    "5 | 4 0 0  1 S2  1 SK  1 SQ  1 SJ  1 1 | worth 0\nupheld\ncard S2",
    "5 | 4 0 0  1 S2  1 SK  1 SQ  1 SJ  0 0 | worth 0\nupheld\ncard S2",
    // under the king, and over it
    "5 | 4 0 0  2 S2 S3  2 SK S4  2 SA SQ  2 H2 H3  0 2 | worth 2\nupheld\ncard S2",
    "5 | 4 0 0  2 S2 S3  2 SK S4  2 SA SQ  2 H2 H3  1 1 | worth 2\nnot upheld\ncard S2",
    "5 | 4 0 0  2 S2 S3  2 H2 H3  2 SA SQ  2 SK S4  0 2 | worth 1\nnot upheld\nS2: H2\nS3: H2",
    "5 | 4 0 0  2 S2 S3  2 H2 H3  2 SA SQ  2 SK S4  0 1 | worth 1\nupheld\ncard S2",
    "5 | 4 0 0  2 S2 S3  2 H2 H3  2 SA SQ  2 SK S4  1 1 | worth 1\nupheld\ncard S2",
    "5 | 4 0 0  2 S2 S3  2 H2 H3  2 SA SQ  2 SK S4  1 2 | worth 1\nnot upheld\ncard S2",
    // the others lead
    "5 | 4 1 0  2 SA SQ  2 SK S2  2 H2 H3  2 H4 H5  0 2 | worth 2\nupheld\ncard S2",
    "5 | 4 1 0  2 SA SQ  2 SK S2  2 H2 H3  2 H4 H5  1 1 | worth 2\nnot upheld\nS2: H2\nSK: H2",
    "5 | 4 1 0  2 SA SQ  2 SK S2  2 H2 H3  2 H4 H5  1 2 | worth 2\nnot upheld\nS2: H2\nSK: H2",
    // ruffs both ways
    "5 | 3 0 0  2 S2 H2  2 HA DA  2 S3 D2  2 HK DK  0 2 | worth 2\nupheld\ncard H2",
    "5 | 3 0 0  2 S2 H2  2 HA DA  2 S3 D2  2 HK DK  1 1 | worth 2\nnot upheld\ncard H2",
    "5 | 3 0 0  2 S2 H2  2 HA DA  2 S3 D2  2 HK DK  1 2 | worth 2\nnot upheld\ncard H2",
    // a squeeze, and the same with the hands of players 1 and 3 exchanged
    "5 | 4 0 0  3 CA S3 D2  3 SK SQ HA  3 SA SJ HK  3 D3 D4 D5  0 3 | worth 3\nupheld\ncard CA",
    "5 | 4 0 0  3 CA S3 D2  3 SK SQ HA  3 SA SJ HK  3 D3 D4 D5  1 1 | worth 3\nnot upheld\ncard CA",
    "5 | 4 0 0  3 CA S3 D2  3 SK SQ HA  3 SA SJ HK  3 D3 D4 D5  1 0 | worth 3\nupheld\ncard CA",
    "5 | 4 0 0  3 CA S3 D2  3 D3 D4 D5  3 SA SJ HK  3 SK SQ HA  0 3 | worth 2\nnot upheld\nCA: D3\nD2: D3\nS3: D3",
    "5 | 4 0 0  3 CA S3 D2  3 D3 D4 D5  3 SA SJ HK  3 SK SQ HA  0 2 | worth 2\nupheld\ncard CA",
    "5 | 4 0 0  3 CA S3 D2  3 D3 D4 D5  3 SA SJ HK  3 SK SQ HA  1 1 | worth 2\nupheld\ncard CA",
    "5 | 4 0 0  3 CA S3 D2  3 D3 D4 D5  3 SA SJ HK  3 SK SQ HA  1 2 | worth 2\nnot upheld\ncard CA",
    // two aces, and no third trick
    "5 | 4 0 0  3 SA S2 HA  3 SK SQ SJ  3 S3 S4 D2  3 S5 S6 D3  0 3 | worth 2\nnot upheld\nHA: SJ\nS2: SJ\nSA: SJ",
    "5 | 4 0 0  3 SA S2 HA  3 SK SQ SJ  3 S3 S4 D2  3 S5 S6 D3  0 2 | worth 2\nupheld\ncard HA",
    "5 | 4 0 0  3 SA S2 HA  3 SK SQ SJ  3 S3 S4 D2  3 S5 S6 D3  1 1 | worth 2\nupheld\ncard HA",
    "5 | 4 0 0  3 SA S2 HA  3 SK SQ SJ  3 S3 S4 D2  3 S5 S6 D3  1 2 | worth 2\nnot upheld\ncard HA",
    // as many cards as are served: 4, 5 and 8
    "4 | 0 0 0  4 C8 CK HT SJ  4 C3 C4 DT SQ  4 CA D5 D8 SA  4 D7 D9 DQ S4  0 4 | worth 4\nupheld\ncard HT",
    "4 | 4 3 0  4 C8 D2 DT DA  4 C6 D3 D7 SJ  4 C4 D4 HJ HA  4 C2 C3 H6 S6  1 2 | worth 3\nnot upheld\nC2: C8\nC3: C8\nH6: C8\nS6: D2",
    "5 | 4 0 0  5 C2 CK D6 DK HT  5 CJ DJ DA SQ SK  5 D5 D8 H5 H8 H9  5 C8 D3 HK S2 S7  0 2 | worth 2\nupheld\ncard CK",
    "5 | 2 3 0  5 H6 S3 S4 ST SK  5 H7 HQ S2 S5 SQ  5 H3 HK S6 S7 SJ  5 H2 H8 H9 S9 SA  1 4 | worth 2\nnot upheld\nH2: H6\nH8: H6\nH9: H6\nS9: SK\nSA: S3",
    "8 | 4 1 0  8 CA CK CQ CJ CT C9 C8 C7  8 DA DK DQ DJ DT D9 D8 D7  8 HA HK HQ HJ HT H9 H8 H7  8 SA SK SQ SJ ST S9 S8 S7  1 8 | worth 0\nupheld\ncard D7",
    "8 | 0 1 0  8 CA CK CQ CJ CT C9 C8 C7  8 DA DK DQ DJ DT D9 D8 D7  8 HA HK HQ HJ HT H9 H8 H7  8 SA SK SQ SJ ST S9 S8 S7  1 1 | worth 8\nnot upheld\nD7: H7\nD8: H7\nD9: H7\nDT: H7\nDJ: H7\nDQ: H7\nDK: H7\nDA: H7",
];

// tables with a trick begun, and each player to play
pub(crate) const STARTED: [&str; 54] = [
    // a card lies: players 1, 2, 3 and 0 are to play
    "5 | 4 0 1 SQ  2 H4 H6  3 S4 SJ SA  3 H2 HA S6  3 H9 HQ S8  1 3 | worth 0\nupheld\ncard SA",
    "5 | 4 0 1 SQ  2 H4 H6  3 S4 SJ SA  3 H2 HA S6  3 H9 HQ S8  0 1 | worth 0\nnot upheld\ncard SA",
    "5 | 0 0 1 D5  2 D3 H6  3 D7 D9 H2  3 D8 DJ H8  3 HT HQ HK  1 2 | worth 2\nnot upheld\nD7: D8\nD9: DJ",
    "5 | 1 1 1 ST  3 HA S3 SK  2 CJ D7  3 DK H6 HK  3 C9 S2 SQ  0 2 | worth 2\nupheld\ncard H6",
    "5 | 1 1 1 ST  3 HA S3 SK  2 CJ D7  3 DK H6 HK  3 C9 S2 SQ  1 2 | worth 2\nnot upheld\ncard H6",
    "5 | 3 1 1 D7  3 CK H4 HT  2 CT CA  3 C5 CJ HQ  3 C8 D4 D9  0 1 | worth 0\nnot upheld\nC5: D4\nCJ: D4\nHQ: D9",
    "5 | 0 2 1 D6  3 C6 D2 HT  3 C4 C9 D3  2 HQ HA  3 CQ D4 DQ  1 3 | worth 0\nupheld\ncard DQ",
    "5 | 0 2 1 D6  3 C6 D2 HT  3 C4 C9 D3  2 HQ HA  3 CQ D4 DQ  0 1 | worth 0\nnot upheld\ncard DQ",
    "5 | 2 2 1 C7  3 H7 HJ SA  3 C9 CQ D4  2 CT DQ  3 D8 HT S8  1 1 | worth 3\nnot upheld\nD8: H7\nHT: HJ\nS8: H7",
    "5 | 4 3 1 CQ  3 CT CA DJ  3 C7 D9 DT  3 CJ D5 DA  2 C2 C6  0 3 | worth 3\nupheld\ncard CA",
    "5 | 4 3 1 CQ  3 CT CA DJ  3 C7 D9 DT  3 CJ D5 DA  2 C2 C6  1 1 | worth 3\nnot upheld\ncard CA",
    "5 | 4 3 1 H2  3 DT H4 H6  3 H5 HJ HA  3 D5 D6 DQ  2 D8 H8  0 1 | worth 0\nnot upheld\nH4: H5\nH6: HJ",
    // two cards lie: players 2, 3, 0 and 1
    "5 | 2 0 2 CJ D8  2 DJ SA  2 H8 HJ  3 D7 H4 H9  3 CA DQ HT  0 1 | worth 1\nupheld\ncard H4",
    "5 | 2 0 2 CJ D8  2 DJ SA  2 H8 HJ  3 D7 H4 H9  3 CA DQ HT  1 3 | worth 1\nnot upheld\ncard H4",
    "5 | 0 0 2 S5 HQ  2 C5 CQ  2 C4 H8  3 C9 H3 HK  3 C6 C7 CT  0 2 | worth 1\nnot upheld\nC9: CT\nH3: C6\nHK: C6",
    "5 | 3 1 2 SQ HT  3 C4 S5 S7  2 D5 H3  2 D4 D6  3 C8 D3 H8  1 2 | worth 1\nupheld\ncard D3",
    "5 | 3 1 2 SQ HT  3 C4 S5 S7  2 D5 H3  2 D4 D6  3 C8 D3 H8  0 2 | worth 1\nnot upheld\ncard D3",
    "5 | 4 1 2 H6 H3  3 H4 HK SA  2 H2 ST  2 HT S8  3 HQ HA S9  1 2 | worth 2\nnot upheld\nHQ: HK\nHA: H4",
    "5 | 4 2 2 H8 H9  3 DK H5 HK  3 D6 D9 DQ  2 H3 H6  2 D2 DA  0 3 | worth 3\nupheld\ncard HK",
    "5 | 4 2 2 H8 H9  3 DK H5 HK  3 D6 D9 DQ  2 H3 H6  2 D2 DA  1 1 | worth 3\nnot upheld\ncard HK",
    "5 | 0 2 2 D5 CT  3 C5 C7 S5  3 C6 C8 S9  2 CQ D4  2 CA SJ  0 1 | worth 0\nnot upheld\nC5: C6\nC7: C6\nS5: S9",
    "5 | 4 3 2 S4 C3  2 C7 CT  3 S5 ST SA  3 CK S3 SJ  2 C2 SQ  1 2 | worth 1\nupheld\ncard SA",
    "5 | 4 3 2 S4 C3  2 C7 CT  3 S5 ST SA  3 CK S3 SJ  2 C2 SQ  0 2 | worth 1\nnot upheld\ncard SA",
    "5 | 4 3 2 S4 C3  2 C7 CT  3 S5 ST SA  3 CK S3 SJ  2 C2 SQ  1 3 | worth 1\nnot upheld\nS5: SJ\nST: SJ\nSA: S3",
    // three cards lie: players 3, 0, 1 and 2
    "5 | 1 0 3 C6 C4 H3  2 D9 S3  2 D7 HK  2 D2 SQ  3 C2 CT S9  1 2 | worth 1\nupheld\ncard CT",
    "5 | 1 0 3 C6 C4 H3  2 D9 S3  2 D7 HK  2 D2 SQ  3 C2 CT S9  0 2 | worth 1\nnot upheld\ncard CT",
    "5 | 3 0 3 C6 C8 C4  2 C3 SJ  2 ST SQ  2 C5 SK  3 C2 CJ S9  1 3 | worth 1\nnot upheld\nC2: SK\nCJ: C3",
    "5 | 4 1 3 DK D5 D3  3 CA H4 S2  2 H2 H3  2 C9 HK  2 C3 CQ  0 2 | worth 2\nupheld\ncard H4",
    "5 | 4 1 3 DK D5 D3  3 CA H4 S2  2 H2 H3  2 C9 HK  2 C3 CQ  1 2 | worth 2\nnot upheld\ncard H4",
    "5 | 4 1 3 H8 HK H6  3 DK H4 HA  2 D4 HJ  2 S3 S8  2 H7 ST  0 3 | worth 2\nnot upheld\nH4: ST\nHA: D4",
    "5 | 4 2 3 H7 S7 HQ  2 C5 S9  3 CK H8 HK  2 C6 C7  2 S8 SK  1 3 | worth 0\nupheld\ncard HK",
    "5 | 4 2 3 H7 S7 HQ  2 C5 S9  3 CK H8 HK  2 C6 C7  2 S8 SK  0 1 | worth 0\nnot upheld\ncard HK",
    "5 | 1 2 3 H2 HJ H5  2 C2 H3  3 C4 D6 SJ  2 DT DQ  2 D8 DJ  1 3 | worth 1\nnot upheld\nC4: C2\nD6: DT\nSJ: C2",
    "5 | 4 3 3 H4 CJ H6  2 DJ DK  2 DQ H2  3 H3 HT HA  2 D8 DT  0 3 | worth 3\nupheld\ncard HT",
    "5 | 4 3 3 H4 CJ H6  2 DJ DK  2 DQ H2  3 H3 HT HA  2 D8 DT  1 1 | worth 3\nnot upheld\ncard HT",
    "5 | 0 3 3 D6 D2 D7  2 D4 D8  2 H5 HQ  3 C2 CT HJ  2 CQ DT  0 2 | worth 1\nnot upheld\nC2: CQ\nCT: CQ\nHJ: H5",
    // the last card of the last trick, after which no turn is left
    "5 | 4 0 3 SA SK SQ  0  0  0  1 SJ  0 1 | worth 1\nupheld\ncard SJ",
    "5 | 4 0 3 SA SK SQ  0  0  0  1 SJ  1 1 | worth 1\nnot upheld\nSJ: -",
    "5 | 4 0 3 SA SK SQ  0  0  0  1 SJ  1 0 | worth 1\nupheld\ncard SJ",
    "5 | 4 0 3 S2 SK SQ  0  0  0  1 SA  0 1 | worth 0\nnot upheld\ncard SA",
    "5 | 4 0 3 S2 SK SQ  0  0  0  1 SA  1 1 | worth 0\nupheld\ncard SA",
    "5 | 4 1 3 S2 SQ SK  1 SJ  0  0  0  0 1 | worth 0\nnot upheld\nSJ: -",
    "5 | 4 1 3 S2 SQ SK  1 SA  0  0  0  0 1 | worth 1\nupheld\ncard SA",
    "5 | 4 1 3 S2 SQ SK  1 SA  0  0  0  1 1 | worth 1\nnot upheld\ncard SA",
    "5 | 4 2 3 S2 SQ S4  0  1 SJ  0  0  1 1 | worth 0\nupheld\ncard SJ",
    "5 | 4 2 3 SK SQ S4  0  1 SJ  0  0  1 1 | worth 1\nnot upheld\nSJ: -",
    "5 | 4 3 3 S2 SQ S4  0  0  1 SJ  0  0 1 | worth 1\nupheld\ncard SJ",
    // the same with a ruff
    "5 | 2 3 3 S2 SQ S4  0  0  1 H2  0  0 1 | worth 1\nupheld\ncard H2",
    "5 | 2 3 3 S2 HQ S4  0  0  1 H2  0  0 1 | worth 1\nupheld\ncard H2",
    "5 | 2 0 3 SA S3 S4  0  0  0  1 H2  0 1 | worth 0\nnot upheld\ncard H2",
    // one card is left to each but those who played
    "5 | 4 0 1 S2  0  1 SK  1 SQ  1 SJ  1 1 | worth 0\nupheld\ncard SK",
    "5 | 4 0 1 S2  0  1 SK  1 SA  1 SJ  1 1 | worth 1\nnot upheld\nSK: SA",
    "5 | 4 0 2 S2 SK  0  0  1 SA  1 SJ  0 1 | worth 1\nupheld\ncard SA",
    "5 | 4 0 2 S2 SK  0  0  1 SQ  1 SJ  0 1 | worth 0\nnot upheld\nSQ: SJ",
];

// claims that are not upheld, where the card of the side that claims ends a trick: if that side takes it, it leads by advice, and the reply is to that lead
pub(crate) const LEADS: [&str; 18] = [
    // with its own card: our side leads by advice, and the reply is to that lead
    "5 | 4 1 3 S7 S4 C9  3 CQ S8 SA  2 CA H8  2 CT S9  2 H2 HK  0 3 | worth 2\nnot upheld\nS8: H8\nSA: H8",
    "5 | 3 1 3 HJ H2 HK  3 C5 D6 SQ  2 CK H7  2 C9 DJ  2 C3 HT  0 3 | worth 2\nnot upheld\nC5: C3\nD6: C3\nSQ: H7",
    "5 | 2 3 3 D9 D7 S5  2 CJ S7  2 C2 C7  3 D4 DA S4  2 CA D6  0 3 | worth 2\nnot upheld\nD4: CA\nDA: D6",
    "5 | 4 3 3 HJ H4 HQ  2 C5 S6  2 C3 S3  3 CQ HT HK  2 CA D6  0 3 | worth 2\nnot upheld\nHT: C3\nHK: D6",
    // the others
    "5 | 4 0 3 C5 H8 SK  2 C6 S4  2 H2 ST  2 HJ SJ  3 C3 C9 HQ  1 3 | worth 1\nnot upheld\nC3: C6\nC9: S4",
    "5 | 4 0 3 D7 D6 HA  2 CT S9  2 C2 H2  2 H3 HJ  3 C7 D3 D9  1 3 | worth 1\nnot upheld\nD3: CT\nD9: S9",
    "5 | 4 2 3 DJ C2 DT  2 C5 H5  3 CK D3 DQ  2 CA HK  2 H3 H7  1 3 | worth 1\nnot upheld\nD3: CA\nDQ: HK",
    "5 | 4 2 3 CJ C7 C2  2 S5 SQ  3 C4 CA SK  2 CT HJ  2 C6 S4  1 3 | worth 1\nnot upheld\nC4: CT\nCA: HJ",
    // the partner's card takes the trick, and the partner leads by advice: our side
    "5 | 4 1 3 H3 HQ HT  3 D4 H2 H8  2 D8 HK  2 DJ SK  2 DQ H7  0 3 | worth 2\nnot upheld\nH2: H7\nH8: H7",
    "5 | 0 1 3 C6 CJ C4  3 D3 H7 S5  2 H8 HJ  2 H4 S4  2 D5 HT  0 3 | worth 2\nnot upheld\nD3: D5\nH7: HT\nS5: D5",
    "5 | 4 3 3 H3 HA H7  2 D3 H5  2 C8 D7  3 C7 H8 HJ  2 C2 H4  0 3 | worth 2\nnot upheld\nH8: D7\nHJ: D7",
    // the others
    "5 | 4 0 3 C3 CK C4  2 D6 S2  2 D4 H4  2 D9 S8  3 D7 HQ S5  1 3 | worth 1\nnot upheld\nD7: D9\nHQ: S8\nS5: S8",
    "5 | 4 0 3 ST SK H8  2 D2 HQ  2 D4 S8  2 DQ HJ  3 D5 HT HA  1 3 | worth 1\nnot upheld\nD5: DQ\nHT: DQ\nHA: HJ",
    "5 | 4 2 3 S4 SK HQ  2 C8 H7  3 C3 D9 H3  2 H6 H9  2 C7 D7  1 3 | worth 1\nnot upheld\nC3: C8\nD9: H7\nH3: H7",
    // the other side takes the trick with a card below its own, and its reply is a lead
    "5 | 4 1 3 SK S2 S3  3 S4 SA D2  2 DK HA  2 D3 C2  2 C3 C4  0 3 | worth 2\nnot upheld\nS4: DK\nSA: HA",
    "5 | 4 0 3 SK S2 S3  2 DK HA  2 C3 C4  2 D3 C2  3 S4 SA D2  1 3 | worth 1\nnot upheld\nS4: DK\nSA: DK",
    // no turn of the other side is left
    "5 | 4 1 3 SA S2 S3  1 S4  0  0  0  0 1 | worth 0\nnot upheld\nS4: -",
    "5 | 4 2 3 SA S2 S3  0  1 S4  0  0  1 1 | worth 1\nnot upheld\nS4: -",
];

// rows before the claim, which is judged at the table after them
pub(crate) const ROWS: [&str; 35] = [
    // a row that stops within a trick, at each of its cards
    "5 | 4 0 0  3 CA S3 D2  3 SK SQ HA  3 SA SJ HK  3 D3 D4 D5  CA  0 3 | worth 3\nupheld\ncard HA",
    "5 | 4 0 0  3 CA S3 D2  3 SK SQ HA  3 SA SJ HK  3 D3 D4 D5  CA  1 1 | worth 3\nnot upheld\nHA: SJ\nSQ: HK\nSK: HK",
    "5 | 4 0 0  3 CA S3 D2  3 SK SQ HA  3 SA SJ HK  3 D3 D4 D5  CA SQ  0 3 | worth 3\nupheld\ncard HK",
    "5 | 4 0 0  3 CA S3 D2  3 SK SQ HA  3 SA SJ HK  3 D3 D4 D5  CA HA  1 1 | worth 3\nnot upheld\ncard SJ",
    "5 | 4 0 0  3 CA S3 D2  3 SK SQ HA  3 SA SJ HK  3 D3 D4 D5  CA SQ HK  0 3 | worth 3\nupheld\ncard D3",
    "5 | 4 0 0  3 CA S3 D2  3 SK SQ HA  3 SA SJ HK  3 D3 D4 D5  CA SQ SJ  1 1 | worth 2\nupheld\ncard D3",
    // whole tricks
    "5 | 4 0 0  3 CA S3 D2  3 SK SQ HA  3 SA SJ HK  3 D3 D4 D5  CA SQ HK D3  0 2 | worth 2\nupheld\ncard S3",
    "5 | 4 0 0  3 CA S3 D2  3 SK SQ HA  3 SA SJ HK  3 D3 D4 D5  CA SQ HK D3  0 1 | worth 2\nupheld\ncard S3",
    "5 | 4 0 0  3 CA S3 D2  3 SK SQ HA  3 SA SJ HK  3 D3 D4 D5  CA SQ HK D3  1 1 | worth 2\nnot upheld\ncard S3",
    "5 | 4 0 0  3 CA S3 D2  3 SK SQ HA  3 SA SJ HK  3 D3 D4 D5  CA SQ HK D3  S3 SK SA D4  0 1 | worth 1\nupheld\ncard SJ",
    "5 | 4 0 0  3 CA S3 D2  3 SK SQ HA  3 SA SJ HK  3 D3 D4 D5  CA SQ HK D3  S3 SK SA D4  1 1 | worth 1\nnot upheld\ncard SJ",
    "5 | 4 0 0  3 CA S3 D2  3 SK SQ HA  3 SA SJ HK  3 D3 D4 D5  CA SQ SJ D3  S3 SK SA D4  0 1 | worth 0\nnot upheld\nHK: D5",
    "5 | 4 0 0  3 CA S3 D2  3 SK SQ HA  3 SA SJ HK  3 D3 D4 D5  CA SQ SJ D3  S3 SK SA D4  1 1 | worth 0\nupheld\ncard HK",
    // a card that costs tricks
    "5 | 4 0 0  3 CA S3 D2  3 SK SQ HA  3 SA SJ HK  3 D3 D4 D5  D2  0 3 | worth 0\nnot upheld\ncard HA",
    "5 | 4 0 0  3 CA S3 D2  3 SK SQ HA  3 SA SJ HK  3 D3 D4 D5  D2  1 1 | worth 0\nupheld\ncard HA",
    "5 | 4 0 0  3 CA S3 D2  3 SK SQ HA  3 SA SJ HK  3 D3 D4 D5  S3 SQ SA D3  0 2 | worth 0\nnot upheld\nHK: D4\nSJ: D4",
    "5 | 4 0 0  3 CA S3 D2  3 D3 D4 D5  3 SA SJ HK  3 SK SQ HA  CA D3 SJ SQ  0 2 | worth 1\nnot upheld\nD2: D4\nS3: D4",
    "5 | 4 0 0  3 SA S2 HA  3 SK SQ SJ  3 S3 S4 D2  3 S5 S6 D3  SA SJ S3 S5  0 2 | worth 1\nnot upheld\nHA: SQ\nS2: SQ",
    "5 | 4 0 0  3 SA S2 HA  3 SK SQ SJ  3 S3 S4 D2  3 S5 S6 D3  SA SJ S3 S5  0 1 | worth 1\nupheld\ncard HA",
    "5 | 4 0 0  3 SA S2 HA  3 SK SQ SJ  3 S3 S4 D2  3 S5 S6 D3  HA SJ D2 D3  0 2 | worth 1\nnot upheld\nS2: SQ\nSA: SQ",
    // a lead to the ruff, and away from it
    "5 | 3 0 0  2 S2 H2  2 HA DA  2 S3 D2  2 HK DK  S2 HA S3 HK  0 1 | worth 0\nnot upheld\nD2: DK",
    "5 | 3 0 0  2 S2 H2  2 HA DA  2 S3 D2  2 HK DK  H2 HA D2 HK  0 1 | worth 1\nupheld\ncard DA",
    "5 | 3 0 0  2 S2 H2  2 HA DA  2 S3 D2  2 HK DK  H2 HA S3 HK  0 1 | worth 1\nupheld\ncard D2",
    "5 | 3 0 0  2 S2 H2  2 HA DA  2 S3 D2  2 HK DK  H2 HA S3 HK  D2 DK S2 DA  0 0 | worth 0\nupheld\ncard -",
    // where the others led
    "5 | 4 1 0  2 SA SQ  2 SK S2  2 H2 H3  2 H4 H5  S2 H2 H4 SQ  0 1 | worth 1\nupheld\ncard SA",
    "5 | 4 1 0  2 SA SQ  2 SK S2  2 H2 H3  2 H4 H5  S2 H2 H4  0 2 | worth 2\nupheld\ncard SQ",
    "5 | 4 1 0  2 SA SQ  2 SK S2  2 H2 H3  2 H4 H5  SK H3 H5 SA  1 1 | worth 1\nnot upheld\ncard SQ",
    // on a trick begun
    "5 | 4 1 3 DK D5 D3  3 CA H4 S2  2 H2 H3  2 C9 HK  2 C3 CQ  H4  0 2 | worth 2\nupheld\ncard H2",
    "5 | 4 0 1 SQ  2 H4 H6  3 S4 SJ SA  3 H2 HA S6  3 H9 HQ S8  SA S6  1 3 | worth 0\nupheld\ncard S8",
    "5 | 4 0 1 SQ  2 H4 H6  3 S4 SJ SA  3 H2 HA S6  3 H9 HQ S8  SJ S6 S8  1 2 | worth 1\nnot upheld\ncard H4",
    // all is played: nobody has a card
    "5 | 4 0 0  1 SA  1 SK  1 SQ  1 SJ  SA SK SQ SJ  0 0 | worth 0\nupheld\ncard -",
    "5 | 4 0 0  1 SA  1 SK  1 SQ  1 SJ  SA SK SQ SJ  1 0 | worth 0\nupheld\ncard -",
    "5 | 4 0 0  3 CA S3 D2  3 SK SQ HA  3 SA SJ HK  3 D3 D4 D5  CA SQ HK D3  S3 SK SA D4  SJ D5 D2 HA  0 0 | worth 0\nupheld\ncard -",
    "5 | 4 0 0  3 CA S3 D2  3 SK SQ HA  3 SA SJ HK  3 D3 D4 D5  CA SQ HK D3  S3 SK SA D4  SJ D5 D2 HA  1 0 | worth 0\nupheld\ncard -",
    "5 | 4 0 3 SA SK SQ  0  0  0  1 SJ  SJ  0 0 | worth 0\nupheld\ncard -",
];

// inputs that are refused
pub(crate) const REFUSED: [&str; 104] = [
    // trump is no suit and not 4
    "5 | 5 0 0  1 SA  1 SK  1 SQ  1 SJ  0 1 | refused 1 at 0",
    "5 | 255 0 0  1 SA  1 SK  1 SQ  1 SJ  0 1 | refused 1 at 0",
    "5 | 5  0 1 | refused 1 at 0",
    // the leader is no player, more than three cards lie, or both
    "5 | 4 4 0  1 SA  1 SK  1 SQ  1 SJ  0 1 | refused 2 at 1",
    "5 | 4 255 0  1 SA  1 SK  1 SQ  1 SJ  0 1 | refused 2 at 1",
    "5 | 4 0 4 SA SK SQ SJ  1 S2  1 S3  1 S4  1 S5  0 1 | refused 2 at 2",
    "5 | 4 0 255  1 SA  1 SK  1 SQ  1 SJ  0 1 | refused 2 at 2",
    "5 | 4 4 4  1 SA  1 SK  1 SQ  1 SJ  0 1 | refused 2 at 1",
    "5 | 4 4  0 1 | refused 2 at 1",
    "5 | 4 3 4  0 1 | refused 2 at 2",
    // a hand above those served, also in a deal that ends there
    "1 | 4 0 0  2 S2 S3  2 SK S4  2 SA SQ  2 H2 H3  0 2 | refused 11 at 0",
    "2 | 4 0 0  3 CA S3 D2  3 SK SQ HA  3 SA SJ HK  3 D3 D4 D5  0 3 | refused 11 at 0",
    "5 | 4 0 0  1 SA  1 SK  1 SQ  6 SJ ST S9 S8 S7 S6  0 1 | refused 11 at 0",
    "5 | 4 0 0  6  0 1 | refused 11 at 0",
    "5 | 4 0 0  1 SA  1 SK  255  0 1 | refused 11 at 0",
    "0 | 4 0 0  1 SA  1 SK  1 SQ  1 SJ  0 1 | refused 11 at 0",
    "8 | 4 0 0  9 C2 C3 C4 C5 C6 C7 C8 C9 CT  9 D2 D3 D4 D5 D6 D7 D8 D9 DT  9 H2 H3 H4 H5 H6 H7 H8 H9 HT  9 S2 S3 S4 S5 S6 S7 S8 S9 ST  0 1 | refused 11 at 0",
    // bytes that end too early, where the claim is the last two
    "5 |  | refused 3 at 0",
    "5 | 4 | refused 3 at 0",
    "5 | 4 0 | refused 3 at 0",
    "5 | 255 255 | refused 3 at 0",
    "5 | 4 0 1 | refused 3 at 1",
    "5 | 4 0 0 1 | refused 3 at 2",
    "5 | 4 0 0  0 1 | refused 3 at 3",
    "5 | 4 0 0  1  0 1 | refused 3 at 4",
    "5 | 4 0 0  1 SA  0 1 | refused 3 at 5",
    "5 | 4 0 0  1 SA  1 SK  1 SQ  0 1 | refused 3 at 9",
    "5 | 4 0 0  1 SA  1 SK  1 SQ  1  0 1 | refused 3 at 10",
    "5 | 4 0 0  1 SA  1 SK  1 SQ  1 SJ | refused 3 at 9",
    "5 | 4 0 0  1 SA  1 SK  1 SQ  1 SJ  0 | refused 3 at 10",
    "5 | 4 0 3 SA  0 1 | refused 3 at 4",
    "5 | 4 0 3 SA SK SQ  0  0  0  0 1 | refused 3 at 9",
    "5 | 4 0 0  3 CA S3 D2  3 SK SQ HA  3 SA SJ HK  3 D3 D4 D5  0 | refused 3 at 18",
    // a card above 51: in a hand, the last, in the trick
    "5 | 4 0 0  1 52  1 SK  1 SQ  1 SJ  0 1 | refused 4 at 4",
    "5 | 4 0 0  1 SA  1 SK  1 SQ  1 255  0 1 | refused 4 at 10",
    "5 | 4 0 2 S2 52  0  0  1 SQ  1 SJ  0 1 | refused 4 at 4",
    // a card twice: in a hand, in two hands, in the trick, in the trick and a hand
    "5 | 4 0 0  2 S2 S2  2 SK S4  2 SA SQ  2 H2 H3  0 2 | refused 4 at 5",
    "5 | 4 0 0  2 S2 S3  2 SK S4  2 SA SK  2 H2 H3  0 2 | refused 4 at 11",
    "5 | 4 0 0  2 S2 S3  2 SK S4  2 SA SQ  2 H2 S2  0 2 | refused 4 at 14",
    "5 | 4 0 2 S2 S2  0  0  1 SQ  1 SJ  0 1 | refused 4 at 4",
    "5 | 4 0 2 S2 SK  0  0  1 SQ  1 SK  0 1 | refused 4 at 10",
    // the first of two places is told
    "5 | 4 0 0  2 S2 S3  2 SK S3  2 SA 99  2 H2 H3  0 2 | refused 4 at 8",
    "5 | 4 0 0  2 S2 S3  2 SK 99  2 SA S3  2 H2 H3  0 2 | refused 4 at 8",
    // uneven hands: one card more, one fewer, at each player
    "5 | 4 0 0  1 SA  2 SK S2  1 SQ  1 SJ  0 1 | refused 5 at 5",
    "5 | 4 0 0  1 SA  1 SK  0  1 SJ  0 1 | refused 5 at 7",
    "5 | 4 0 0  1 SA  1 SK  1 SQ  2 SJ S2  0 1 | refused 5 at 9",
    "5 | 4 1 0  1 SA  2 SK S2  1 SQ  1 SJ  0 1 | refused 5 at 3",
    "5 | 4 3 0  1 SA  1 SK  1 SQ  0  0 1 | refused 5 at 3",
    // with the cards of the trick
    "5 | 4 0 1 SA  1 S2  1 SK  1 SQ  1 SJ  0 1 | refused 5 at 6",
    "5 | 4 0 2 SA SK  0  1 S2  1 SQ  1 SJ  0 1 | refused 5 at 6",
    "5 | 4 2 2 SA SK  1 S2  1 SQ  0  1 SJ  0 1 | refused 5 at 10",
    "5 | 4 3 3 SA SK SQ  1 S2  0  1 SJ  0  0 1 | refused 5 at 6",
    // no cards: no table after the last trick can be dealt
    "5 | 4 0 0  0  0  0  0  0 0 | refused 5 at 3",
    "0 | 4 0 0  0  0  0  0  0 0 | refused 5 at 3",
    "5 | 4 0 3 SA SK SQ  0  0  0  0  0 1 | refused 5 at 9",
    // nine cards, or eight and one in the trick
    "9 | 4 0 0  9 C2 C3 C4 C5 C6 C7 C8 C9 CT  9 D2 D3 D4 D5 D6 D7 D8 D9 DT  9 H2 H3 H4 H5 H6 H7 H8 H9 HT  9 S2 S3 S4 S5 S6 S7 S8 S9 ST  0 1 | refused 5 at 3",
    "8 | 4 0 1 SA  8 C2 C3 C4 C5 C6 C7 C8 C9  8 D2 D3 D4 D5 D6 D7 D8 D9  8 H2 H3 H4 H5 H6 H7 H8 H9  8 S2 S3 S4 S5 S6 S7 S8 S9  0 1 | refused 5 at 4",
    "9 | 4 0 1 SA  8 C2 C3 C4 C5 C6 C7 C8 C9  9 D2 D3 D4 D5 D6 D7 D8 D9 DT  9 H2 H3 H4 H5 H6 H7 H8 H9 HT  9 S2 S3 S4 S5 S6 S7 S8 S9 ST  0 1 | refused 5 at 4",
    // a card of the trick whose player holds one of the suit led: the second, the third, and the first of two
    "5 | 4 0 2 H2 S2  1 C2  1 H3  2 C3 C4  2 C5 C6  0 1 | refused 6 at 4",
    "5 | 4 0 3 H2 H3 S2  1 C2  1 C3  1 H4  2 C5 C6  0 1 | refused 6 at 5",
    "5 | 4 2 3 H2 D2 S2  1 H4  2 C5 C6  1 C2  1 H5  0 1 | refused 6 at 4",
    "5 | 0 3 2 H2 C2  1 H4  2 C5 C6  2 D2 D3  1 H5  0 1 | refused 6 at 4",
    // a card that its player does not hold: of another, of nobody, played before, no card
    "5 | 4 0 0  2 S2 S3  2 SK S4  2 SA SQ  2 H2 H3  SK  0 1 | refused 7 at 0",
    "5 | 4 0 0  2 S2 S3  2 SK S4  2 SA SQ  2 H2 H3  H9  0 1 | refused 7 at 0",
    "5 | 4 0 0  2 S2 S3  2 SK S4  2 SA SQ  2 H2 H3  S2 SK SA H2 SA  0 1 | refused 7 at 4",
    "5 | 4 0 0  2 S2 S3  2 SK S4  2 SA SQ  2 H2 H3  S2 SK SA H2 SQ H3 S2  0 1 | refused 7 at 6",
    "5 | 4 0 0  2 S2 S3  2 SK S4  2 SA SQ  2 H2 H3  52  0 1 | refused 7 at 0",
    "5 | 4 0 0  2 S2 S3  2 SK S4  2 SA SQ  2 H2 H3  S2 255  0 1 | refused 7 at 1",
    "5 | 4 0 0  2 S2 S3  2 SK S4  2 SA SQ  2 H2 H3  S2 S4 H2  0 1 | refused 7 at 2",
    // a card against the suit led
    "5 | 4 0 0  3 CA S3 D2  3 SK SQ HA  3 SA SJ HK  3 D3 D4 D5  CA SQ HK D3  S3 HA  0 1 | refused 8 at 5",
    "5 | 4 0 0  3 CA S3 D2  3 SK SQ HA  3 SA SJ HK  3 D3 D4 D5  S3 SQ HK  0 1 | refused 8 at 2",
    "5 | 3 0 0  2 S2 H2  2 HA DA  2 S3 D2  2 HK DK  H2 DA  0 1 | refused 8 at 1",
    "5 | 3 0 0  2 S2 H2  2 HA DA  2 S3 D2  2 HK DK  S2 HA D2  0 1 | refused 8 at 2",
    "5 | 4 1 3 DK D5 D3  3 CA H4 D2  2 H2 H3  2 C9 HK  2 C3 CQ  H4  0 2 | refused 8 at 0",
    // a card after the last trick, whatever it is
    "5 | 4 0 0  1 SA  1 SK  1 SQ  1 SJ  SA SK SQ SJ SA  0 0 | refused 9 at 4",
    "5 | 4 0 0  1 SA  1 SK  1 SQ  1 SJ  SA SK SQ SJ 255  0 0 | refused 9 at 4",
    "5 | 4 0 0  1 SA  1 SK  1 SQ  1 SJ  SA SK SQ SJ C2 C3  0 0 | refused 9 at 4",
    "5 | 4 0 3 SA SK SQ  0  0  0  1 SJ  SJ 7  0 0 | refused 9 at 1",
    // a side that is none, and more tricks than are left
    "5 | 4 0 0  1 SA  1 SK  1 SQ  1 SJ  2 1 | refused 10 at 0",
    "5 | 4 0 0  1 SA  1 SK  1 SQ  1 SJ  2 0 | refused 10 at 0",
    "5 | 4 0 0  1 SA  1 SK  1 SQ  1 SJ  255 255 | refused 10 at 0",
    "5 | 4 0 0  3 CA S3 D2  3 SK SQ HA  3 SA SJ HK  3 D3 D4 D5  0 4 | refused 10 at 0",
    "5 | 4 0 0  3 CA S3 D2  3 SK SQ HA  3 SA SJ HK  3 D3 D4 D5  1 4 | refused 10 at 0",
    "5 | 4 0 0  3 CA S3 D2  3 SK SQ HA  3 SA SJ HK  3 D3 D4 D5  0 255 | refused 10 at 0",
    "5 | 4 0 0  3 CA S3 D2  3 SK SQ HA  3 SA SJ HK  3 D3 D4 D5  CA SQ HK D3  0 3 | refused 10 at 0",
    "5 | 4 0 0  3 CA S3 D2  3 SK SQ HA  3 SA SJ HK  3 D3 D4 D5  CA SQ HK D3  1 3 | refused 10 at 0",
    "5 | 4 0 0  3 CA S3 D2  3 SK SQ HA  3 SA SJ HK  3 D3 D4 D5  CA SQ HK  0 4 | refused 10 at 0",
    "5 | 4 0 0  1 SA  1 SK  1 SQ  1 SJ  SA SK SQ SJ  0 1 | refused 10 at 0",
    "5 | 4 0 0  1 SA  1 SK  1 SQ  1 SJ  SA SK SQ SJ  1 1 | refused 10 at 0",
    "5 | 4 0 3 SA SK SQ  0  0  0  1 SJ  1 2 | refused 10 at 0",
    // of two wrongs the one that is looked for first is told
    "5 | 5 4 4  9  0 1 | refused 1 at 0",
    "5 | 4 0 9  9  0 1 | refused 2 at 2",
    "5 | 4 0 0  9  0 1 | refused 11 at 0",
    "5 | 4 0 0  6 52 52  2 1 | refused 11 at 0",
    "5 | 4 0 0  2 52 52  0 1 | refused 3 at 6",
    "5 | 4 0 0  2 S2 S2  1 SK  1 SQ  1 SJ  0 9 | refused 4 at 5",
    "5 | 4 0 2 H2 S2  1 C2  2 H3 H4  2 C3 C4  2 C5 C6  0 9 | refused 5 at 7",
    "5 | 4 0 2 H2 S2  1 C2  1 H3  2 C3 C4  2 C5 C6  52  0 9 | refused 6 at 4",
    "5 | 4 0 0  2 S2 S3  2 SK S4  2 SA SQ  2 H2 H3  SK S9  2 9 | refused 7 at 0",
    "5 | 4 0 0  2 S2 S3  2 SK S4  2 SA SQ  2 H2 H3  S2 SK SA H2 H2  0 9 | refused 7 at 4",
    "5 | 3 0 0  2 S2 H2  2 HA DA  2 S3 D2  2 HK DK  S2 HA D2 52  2 0 | refused 8 at 2",
    "5 | 3 0 0  2 S2 H2  2 HA DA  2 S3 D2  2 HK DK  S2 52 D2  0 9 | refused 7 at 1",
    "5 | 4 0 0  1 SA  1 SK  1 SQ  1 SJ  SA SK SQ SJ SA  2 9 | refused 9 at 4",
    "5 | 4 0 0  3 CA S3 D2  3 SK SQ HA  3 SA SJ HK  3 D3 D4 D5  CA SQ HK D3  2 3 | refused 10 at 0",
];

// slices for positions that are just long enough, or cannot be used
pub(crate) const LENT: [&str; 9] = [
    "5 32 1 1 | 4 0 0  1 S2  1 SK  1 SQ  1 SJ  0 1 | worth 0\nnot upheld\nS2: SK",
    "5 32 0 0 | 4 0 0  1 S2  1 SK  1 SQ  1 SJ  0 1 | refused 11 at 2",
    "5 32 0 1 | 4 0 0  1 S2  1 SK  1 SQ  1 SJ  0 1 | refused 11 at 2",
    "5 32 1 0 | 4 0 0  1 S2  1 SK  1 SQ  1 SJ  0 1 | refused 11 at 2",
    "5 32 63 64 | 4 0 0  1 S2  1 SK  1 SQ  1 SJ  0 1 | refused 11 at 2",
    // and another wrong: after the head and the hands, before all else
    "5 32 0 0 | 4 0 4  1 S2  1 SK  1 SQ  1 SJ  0 1 | refused 2 at 2",
    "5 32 0 0 | 4 0 0  6  0 1 | refused 11 at 0",
    "5 32 0 0 | 4 0 | refused 11 at 2",
    "5 32 64 63 | 4 0 0  1 S2  1 SK  1 S2  1 SJ  2 1 | refused 11 at 2",
];
