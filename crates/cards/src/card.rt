// Cards: a suit and a rank each, 52 in all.
ghost use Rattle.std.specs.Prelude.{◌≡◌, ◌+◌, ◌*◌, ◌<◌, ◌≤◌, MatchResult, ◌==◌};
ghost use Rattle.cards.specs.Table.{deck, suit as suit_of, rank as rank_of};
ghost use Rattle.cards.specs.Numbers.{suit_number, trump_number};

#[derive(Clone, Copy, PartialEq, Eq)]
pub enum Suit {
    Clubs,
    Diamonds,
    Hearts,
    Spades,
}

// 0 for the two, 12 for the ace.
#[derive(Clone, Copy, PartialEq, Eq, PartialOrd, Ord)]
pub struct Rank {
    pub number: u8,
    ghost low: { number < 13 },
}

// 13 times its suit, and its rank.
#[derive(Clone, Copy)]
pub struct Card {
    pub number: u8,
    ghost low: { number < deck },
}

// The suit that is trump, if one is. Not an `Option<Suit>`: no trump is a word of the game, with a number and a text of its own.
#[derive(Clone, Copy, PartialEq, Eq)]
pub enum Trump {
    Of(Suit),
    NoTrump,
}

// The number of the card with these numbers for suit and rank, for callers that have numbers and no card yet; its signature is settled.
pub fn card_number(suit: u8, rank: u8) -> u16
    ensures { result ≡ 13 * suit + rank }
{
    13 * suit as u16 + rank as u16
}

// A number that no card, trump, player or side goes by.
#[derive(Clone, Copy)]
pub struct OutOfRange;

impl TryFrom<u8> for Card {
    type Error = OutOfRange;

    ghost try_from_gives = { λ number r. MatchResult r (λ c. c.number ≡ number) (λ _. deck ≤ number) };

    fn try_from(number: u8) -> Result<Self, OutOfRange> {
        if number < 52 {
            Ok(Card { number })
        } else {
            Err(OutOfRange)
        }
    }
}

impl Card {
    pub fn suit(self) -> Suit
        ensures { suit_number result ≡ suit_of self.number }
    {
        match self.number / 13 {
            0 => Suit::Clubs,
            1 => Suit::Diamonds,
            2 => Suit::Hearts,
            _ => Suit::Spades,
        }
    }

    pub fn rank(self) -> Rank
        ensures { result.number ≡ rank_of self.number }
    {
        Rank {
            number: self.number % 13,
        }
    }

    pub fn is_of(self, suit: Suit) -> bool
        ensures { result ≡ (suit_of self.number == suit_number suit) }
    {
        self.suit() == suit
    }
}

// A suit by its number, or 4 for none.
impl TryFrom<u8> for Trump {
    type Error = OutOfRange;

    ghost try_from_gives = { λ number r. MatchResult r (λ t. trump_number t ≡ number) (λ _. 4 < number) };

    fn try_from(number: u8) -> Result<Self, OutOfRange> {
        match number {
            0 => Ok(Trump::Of(Suit::Clubs)),
            1 => Ok(Trump::Of(Suit::Diamonds)),
            2 => Ok(Trump::Of(Suit::Hearts)),
            3 => Ok(Trump::Of(Suit::Spades)),
            4 => Ok(Trump::NoTrump),
            _ => Err(OutOfRange),
        }
    }
}
