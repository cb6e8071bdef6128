// Why an input is turned away. Each case holds what its place needs: of a byte in a deal, or of a card in a row.
ghost use Rattle.std.specs.Prelude.{◌≡◌};
ghost use Rattle.cards.specs.Refusals.{number_of, place_of};

// Lent memory that is too short, in the order of the places by which it is told.
#[derive(Clone, Copy)]
pub enum Lent {
    Hands,
    Plays,
    Positions,
}

#[derive(Clone, Copy)]
pub enum Refusal {
    // the byte for trump is above 4
    Trump,
    // the leader is above 3
    Leader,
    // there are more than three cards in the trick
    Trick,
    // the deal ends before four hands are whole, or before what has to follow it
    Ends(usize),
    // a card above 51, or one that is there twice
    Card(usize),
    // a hand that has not as many cards as the leader's, or none, or more than eight
    Share(usize),
    // a card of the trick against the suit led, of which its player holds one
    TrickRevoke(usize),
    // a card that is not in the hand of who is to play
    NotHeld(usize),
    // a card against the suit led, of which the hand has one
    Revoke(usize),
    // a card after the last trick
    AfterLast(usize),
    // a claim of more tricks than are left, or by no side
    Claim,
    Short(Lent),
}

// A refusal is told by two numbers, neither of which says it alone, so these are no conversions.
impl Refusal {
    // The number by which it is told.
    pub fn number(self) -> u8
        ensures { result ≡ number_of self }
    {
        match self {
            Refusal::Trump => 1,
            Refusal::Leader | Refusal::Trick => 2,
            Refusal::Ends(_) => 3,
            Refusal::Card(_) => 4,
            Refusal::Share(_) => 5,
            Refusal::TrickRevoke(_) => 6,
            Refusal::NotHeld(_) => 7,
            Refusal::Revoke(_) => 8,
            Refusal::AfterLast(_) => 9,
            Refusal::Claim => 10,
            Refusal::Short(_) => 11,
        }
    }

    // The place by which it is told.
    pub fn place(self) -> usize
        ensures { result ≡ place_of self }
    {
        match self {
            Refusal::Trump | Refusal::Claim => 0,
            Refusal::Leader => 1,
            Refusal::Trick => 2,
            Refusal::Ends(place)
            | Refusal::Card(place)
            | Refusal::Share(place)
            | Refusal::TrickRevoke(place)
            | Refusal::NotHeld(place)
            | Refusal::Revoke(place)
            | Refusal::AfterLast(place) => place,
            Refusal::Short(lent) => lent as usize,
        }
    }
}
