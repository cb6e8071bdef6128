// A deal in bytes, read to a table in order, or refused by the first check that it fails.
//
// A deal is trump, leader, the number of cards in the trick, these cards, and for each player the number of its cards and the cards.
ghost use Rattle.std.specs.Prelude.{◌≡◌, ℕ, ◌+◌, ◌-◌, ◌*◌, ◌%◌, ◌^◌, ◌<◌, ◌≤◌, true, false, not, ◌&&◌, ◌||◌, [], ◌∷◌, length, take, drop, IfOk, MatchOption, ◌==◌, nat_lt, slice_index};
ghost use Rattle.cards.specs.Table.{deck, suit, has_suit};
ghost use Rattle.cards.specs.Bits.{bit};
ghost use Rattle.cards.specs.Hands.{bits_of, held, numbers};
ghost use Rattle.cards.specs.Deal.{byte, start_of, trick_of, has, first, first_bad, hand_fault, uneven, share_fault, fault, against};
ghost use Rattle.cards.specs.Numbers.{trump_number};
ghost use Rattle.cards.specs.Faults.{bad_card, bad_share, bad_suit};
ghost use Rattle.cards.specs.Parts.{Says, Gathered, Dealt};
ghost use Rattle.cards.specs.Reading.{run, reading, Right};
ghost use Rattle.cards.specs.Told.{told_board, told};
ghost use Rattle.cards.specs.declared.room.Room.{Room as Memory};

use crate::board::Board;
use crate::card::{Card, Trump};
use crate::deal::Deal;
use crate::hand::Hand;
use crate::layout::Layout;
use crate::player::Player;
use crate::refusal::Refusal;
use crate::room::Room;

// The byte at a place, 0 past the end.
pub fn byte_at(bytes: &[u8], place: usize) -> u8
    ensures { result ≡ byte bytes.now place }
{
    bytes.get(place).copied().unwrap_or(0)
}

// A trick has at most three cards.
fn trick_size(number: u8) -> Option<u8>
    ensures { MatchOption result (3 < number) (λ n. (n ≡ number) × (n ≤ 3)) }
{
    (number <= 3).then_some(number)
}

// The place after the deal, if the bytes reach to it and past what has to follow.
fn whole(end: usize, follow: u8, size: usize) -> Option<usize>
    ensures { MatchOption result (size < end + follow) (λ n. (n ≡ end) × (end + follow ≤ size)) }
{
    (end <= size && follow as usize <= size - end).then_some(end)
}

// The card of a number, if there is one and it is in neither set.
fn new_card(number: u8, taken: Hand, hand: Hand) -> Option<Card>
    ensures { MatchOption result ((not (nat_lt number deck) || (bit taken.bits number || bit hand.bits number)) ≡ true) (λ c. (c.number ≡ number) × ((not (nat_lt number deck) || (bit taken.bits number || bit hand.bits number)) ≡ false)) }
{
    let card = Card::try_from(number).ok()?;
    if taken.holds(card) || hand.holds(card) {
        return None;
    }
    Some(card)
}

// So many bytes from a place on.
fn part(bytes: &[u8], from: usize, count: usize) -> &[u8]
    requires { from + count ≤ length bytes.now }
    ensures { result.now ≡ take count (drop from bytes.now) }
{
    &bytes[from..from + count]
}

// The set of some cards that stand from a place on, or a refusal at the first that is none, or that is in `taken` or there already.
#[tactic(auto, using(crate::proofs::GatherLaws::going_bad))]
fn gather(cards: &[u8], from: usize, taken: Hand) -> Result<Hand, Refusal>
    requires { from + length cards.now < 2 ^ 64 }
    ensures { Says 4 result (first_bad (bit taken.bits) from cards.now) (λ h. Gathered cards.now h.bits) }
{
    let mut hand = Hand::empty();
    for (i, number) in cards.iter().enumerate() {
        let Some(card) = new_card(*number, taken, hand) else {
            return Err(Refusal::Card(from + i));
        };
        hand = hand.with(card);
    }
    Ok(hand)
}

// The four hands, or a refusal at the first card that is none, or stands before. Each hand goes to its place in the array, beside the starts that are gone over.
fn hands_in(layout: &Layout<'_>, trick: Hand) -> Result<[Hand; 4], Refusal>
    requires whole { start_of layout.now.bytes.now 4 ≤ length layout.now.bytes.now }
    requires trick { (x : ℕ) → bit trick.bits x ≡ has (trick_of layout.now.bytes.now) x }
    ensures { Says 4 result (first (hand_fault layout.now.bytes.now) 4) (λ hands. ((taken : ℕ) × Dealt layout.now.bytes.now 4 (bits_of hands) taken)) }
{
    let mut hands = [Hand::empty(); 4];
    let mut taken = trick;
    for (p, start) in layout.starts.iter().enumerate() {
        let cards = part(
            layout.bytes,
            start + 1,
            byte_at(layout.bytes, *start) as usize,
        );
        let hand = gather(cards, start + 1, taken)?;
        hands[p] = hand;
        taken = taken.union(hand);
    }
    Ok(hands)
}

// Whether a player has not as many cards as each should, or none, or more than eight.
fn is_uneven(own: usize, each: usize) -> bool
    ensures { result ≡ uneven own each }
{
    own != each || own == 0 || own > 8
}

// Refuses at the number byte of the first hand that is uneven.
fn check_shares(layout: &Layout<'_>) -> Result<(), Refusal>
    ensures { Says 5 result (share_fault layout.now.bytes.now) (λ _. Unit {0}) }
{
    let each = layout.share(layout.leader);
    for (p, start) in layout.starts.iter().enumerate() {
        let player = Player { seat: p as u8 };
        if is_uneven(layout.share(player), each) {
            return Err(Refusal::Share(*start));
        }
    }
    Ok(())
}

// The card at a place; where there is none, any.
fn card_at(bytes: &[u8], place: usize) -> Card
    ensures { byte bytes.now place < deck → result.number ≡ byte bytes.now place }
{
    Card::try_from(byte_at(bytes, place)).unwrap_or(Card { number: 0 })
}

// The cards in the places of a trick, of which those past its end mean nothing.
fn trick_in(bytes: &[u8]) -> [Card; 3]
    ensures { (i : ℕ) → i < 3 → byte bytes.now (3 + i) < deck → slice_index (numbers result) i ≡ byte bytes.now (3 + i) }
{
    [card_at(bytes, 3), card_at(bytes, 4), card_at(bytes, 5)]
}

// Whether a card is of another suit than the one led, and its player holds one of that.
fn is_against(led: Card, card: Card, hand: Hand) -> bool
    ensures { result ≡ (not (suit card.number == suit led.number) && has_suit (bit hand.bits) (suit led.number) deck) }
{
    !card.is_of(led.suit()) && hand.has_suit(led.suit())
}

// Refuses at the place of the first card of a trick that was played against the suit led.
fn check_suits(
    trick: [Card; 3],
    played: u8,
    leader: Player,
    hands: [Hand; 4],
) -> Result<(), Refusal>
    requires { played ≤ 3 }
    ensures { Says 6 result (first (λ i. fault (against (numbers trick) (held hands) leader.seat i) (3 + i)) played) (λ _. Unit {0}) }
{
    for (i, card) in trick[..played as usize].iter().enumerate() {
        let player = leader.ahead(i as u8);
        if is_against(trick[0], *card, hands[player.seat as usize]) {
            return Err(Refusal::TrickRevoke(3 + i));
        }
    }
    Ok(())
}

// The table of a deal that is long enough, by the checks of its cards.
fn board_in(layout: &Layout<'_>, trump: Trump, played: u8) -> Result<Board, Refusal>
    requires whole { start_of layout.now.bytes.now 4 ≤ length layout.now.bytes.now }
    requires trump { trump_number trump ≡ byte layout.now.bytes.now 0 }
    requires played { played ≡ byte layout.now.bytes.now 2 }
    requires few { played ≤ 3 }
    ensures { (follow : ℕ) (room : Memory) → told_board (start_of layout.now.bytes.now 4) result ≡ run follow layout.now.bytes.now room (bad_card ∷ bad_share ∷ bad_suit ∷ []) }
{
    let lying = gather(part(layout.bytes, 3, played as usize), 3, Hand::empty())?;
    let hands = hands_in(layout, lying)?;
    check_shares(layout)?;
    let trick = trick_in(layout.bytes);
    check_suits(trick, played, layout.leader, hands)?;
    Ok(Board {
        trump,
        hands,
        leader: layout.leader,
        trick,
        played,
    })
}

// The checks in their order, of a deal that so many bytes have to follow. Each hands its value on or refuses by `let .. else`, as is settled;
// those that know the place themselves answer a `Result`. Apart from `read_deal`, which proves once that the refusal is the first.
fn checked_deal(bytes: &[u8], room: Room, follow: u8) -> Result<Deal, Refusal>
    ensures value { told result ≡ reading follow bytes.now room }
    ensures within { IfOk result (λ d. d.size + follow ≤ length bytes.now) }
{
    let Ok(trump) = Trump::try_from(byte_at(bytes, 0)) else {
        return Err(Refusal::Trump);
    };
    let Ok(leader) = Player::try_from(byte_at(bytes, 1)) else {
        return Err(Refusal::Leader);
    };
    let Some(played) = trick_size(byte_at(bytes, 2)) else {
        return Err(Refusal::Trick);
    };
    let layout = Layout::of(bytes, leader);
    room.suffices(layout.most_cards()).map_err(Refusal::Short)?;
    let Some(size) = whole(layout.end, follow, bytes.len()) else {
        return Err(Refusal::Ends(bytes.len()));
    };
    let board = board_in(&layout, trump, played)?;
    Ok(Deal { board, size })
}

// Reads a deal that so many bytes have to follow, given the memory that the caller has for it: where fewer follow, the bytes end too early.
pub fn read_deal(bytes: &[u8], room: Room, follow: u8) -> Result<Deal, Refusal>
    ensures value { told result ≡ reading follow bytes.now room }
    ensures first { Right follow bytes.now room (told result) }
    ensures within { IfOk result (λ d. d.size + follow ≤ length bytes.now) }
{
    checked_deal(bytes, room, follow)
}
