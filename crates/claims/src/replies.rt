// What the other side replies to the cards of the side that claims: the lowest card with which the claim fails.
ghost use Rattle.std.specs.Prelude.{◌≡◌, ◌-◌, true, false, map, MatchOption};
ghost use Rattle.cards.specs.Table.{deck};
ghost use Rattle.cards.specs.Few.{listed};
ghost use Rattle.cards.specs.Seen.{seen, tricks_left};
ghost use Rattle.tricks.specs.Rules.{may};
ghost use Rattle.tricks.specs.Taken.{taker_of};
ghost use Rattle.equals.specs.Covered.{card_told};
ghost use Rattle.worth.specs.Positions.{Under};
ghost use Rattle.worth.specs.Lent.{SameSlots};
ghost use Rattle.claims.specs.Claimed.{claims_side, claims_tricks};
ghost use Rattle.claims.specs.Judging.{own_turn, side_takes, next_failing, answered, replies_below};
ghost use Rattle.claims.specs.Judged.{reply_told};

use crate::advice::advice_under;
use crate::claim::Claim;
use crate::failing::failing_under;
use crate::tried::nth_card;
use crate::turns::is_turn_of;
use cards::board::Board;
use cards::card::Card;
use cards::few::Few;
use cards::player::Player;
use tricks::play::play;
use worth::positions::Positions;

// A card of the side that claims, and the other side's card at its next turn, if it has one.
#[derive(Clone, Copy)]
pub struct Reply {
    pub card: Card,
    pub reply: Option<Card>,
}

// Whether the side that claims is to play.
pub(crate) fn is_claimers_turn(claim: Claim, board: &Board) -> bool
    ensures { result ≡ own_turn (claims_side claim) (seen board.now) }
{
    is_turn_of(claim.side(), board)
}

// The tricks of its claim that a side has once this player took a trick: one or none. Beside `Played::gain`, which is for our side alone, for speed.
fn taken(claim: Claim, taker: Option<Player>) -> u8
    ensures { result ≡ side_takes (claims_side claim) (taker_of taker) }
{
    u8::from(taker.is_some_and(|player| player.side() == claim.side()))
}

// What is left of a claim.
fn claim_less(claim: Claim, tricks: u8) -> Claim
    ensures side { claims_side result ≡ claims_side claim }
    ensures tricks { claims_tricks result ≡ claims_tricks claim - tricks }
{
    match claim {
        Claim::Ours(claimed) => Claim::Ours(claimed.saturating_sub(tricks)),
        Claim::Others(claimed) => Claim::Others(claimed.saturating_sub(tricks)),
    }
}

// At the other side's next turn, the lowest card with which the claim fails. The side that claims is taken to lead by the advice.
fn next_failing(board: &Board, claim: Claim, positions: &mut Positions<'_>) -> Option<Card>
    requires { Under (seen positions.old.root) (seen board.now) }
    ensures card { card_told result ≡ next_failing (claims_side claim) (tricks_left board.now) (claims_tricks claim) (seen board.now) }
    ensures same { SameSlots positions.old positions.new }
{
    if !is_claimers_turn(claim, board) {
        return failing_under(board, claim, positions);
    }
    let lead = advice_under(board, positions)?;
    let led = play(board, lead)?;
    let rest = claim_less(claim, taken(claim, led.taker));
    failing_under(&led.board, rest, positions)
}

// A card of the side that claims and the reply to it, if the card may be played.
fn reply_to(board: &Board, card: Card, claim: Claim, positions: &mut Positions<'_>) -> Option<Reply>
    requires { Under (seen positions.old.root) (seen board.now) }
    ensures reply { MatchOption result (may (seen board.now) card.number ≡ false) (λ x. (may (seen board.now) card.number ≡ true) × (reply_told x ≡ answered (claims_side claim) (tricks_left board.now) (claims_tricks claim) (seen board.now) card.number)) }
    ensures same { SameSlots positions.old positions.new }
{
    let played = play(board, card)?;
    let rest = claim_less(claim, taken(claim, played.taker));
    let reply = next_failing(&played.board, rest, positions);
    Some(Reply { card, reply })
}

// The replies to all cards that may be played, lowest first; by a loop for the same reason as `lowest_card`. A hand has at most eight cards.
pub(crate) fn replies_under(
    board: &Board,
    claim: Claim,
    positions: &mut Positions<'_>,
) -> Few<Reply, 8>
    requires { Under (seen positions.old.root) (seen board.now) }
    ensures replies { map reply_told (listed result) ≡ replies_below (claims_side claim) (tricks_left board.now) (claims_tricks claim) (seen board.now) deck }
    ensures same { SameSlots positions.old positions.new }
{
    let any = Reply {
        card: Card { number: 0 },
        reply: None,
    };
    let mut replies = Few::empty(any);
    for number in 0..52u8 {
        if let Some(reply) = reply_to(board, nth_card(number), claim, positions) {
            replies.push(reply).unwrap();
        }
    }
    replies
}
