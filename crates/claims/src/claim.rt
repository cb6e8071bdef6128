// A claim of tricks for one side, and when it is upheld.
ghost use Rattle.std.specs.Prelude.{◌≡◌};
ghost use Rattle.claims.specs.Sides.{is_ours};
ghost use Rattle.claims.specs.Claims.{upheld};
ghost use Rattle.claims.specs.Claimed.{claims_side, claims_tricks, Claimed};
ghost use Rattle.claims.specs.SideBytes.{SideTold};

use cards::player::Side;
use cards::refusal::Refusal;

// A number of the tricks left, for our side or for the others; an enum by side, as is settled.
#[derive(Clone, Copy)]
pub enum Claim {
    Ours(u8),
    Others(u8),
}

impl Claim {
    // The side that claims.
    pub fn side(self) -> Side
        ensures { is_ours result ≡ claims_side self }
    {
        match self {
            Claim::Ours(_) => Side::Ours,
            Claim::Others(_) => Side::Others,
        }
    }
}

// The side that a number says: 0 for ours and 1 for the others.
pub(crate) fn side_of(number: u8) -> Result<Side, Refusal>
    ensures { SideTold number result }
{
    Side::try_from(number).map_err(|_| Refusal::Claim)
}

// The claim of a side, 0 for ours and 1 for the others: from numbers, as an input has them, and not from a `Side`, which would ask more of callers.
pub fn claim_from(side: u8, tricks: u8, left: u8) -> Result<Claim, Refusal>
    ensures { Claimed side tricks left result }
{
    let side = side_of(side)?;
    if tricks > left {
        return Err(Refusal::Claim);
    }
    match side {
        Side::Ours => Ok(Claim::Ours(tricks)),
        Side::Others => Ok(Claim::Others(tricks)),
    }
}

// Whether a claim of the tricks left is upheld, if so many of them are ours.
pub(crate) fn upholds(claim: Claim, left: u8, worth: u8) -> bool
    ensures { result ≡ upheld (claims_side claim) left (claims_tricks claim) worth }
{
    match claim {
        Claim::Ours(tricks) => tricks <= worth,
        Claim::Others(tricks) => tricks <= left && worth <= left - tricks,
    }
}
