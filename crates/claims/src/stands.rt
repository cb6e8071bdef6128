// Theorems about claims and advice: each function's contract is one.
ghost use Rattle.claims.specs.Claims.{Claim, UpheldIsCan, RefusedIsCannot};
ghost use Rattle.claims.specs.Advice.{AdviceExists, AdvicePays};
ghost use Rattle.claims.specs.Line.{NeverBelow};
ghost use Rattle.claims.specs.PlayOn.{OneCourse};
ghost use Rattle.claims.specs.Failing.{FailsIs, RefusedByCard, UpheldStays, RefusedStays, UpheldByAdvice};

pub fn claim_stands()
    ensures { Claim }
{}

pub fn upheld_is_can_stands()
    ensures { UpheldIsCan }
{}

pub fn refused_is_cannot_stands()
    ensures { RefusedIsCannot }
{}

pub fn advice_exists_stands()
    ensures { AdviceExists }
{}

pub fn advice_pays_stands()
    ensures { AdvicePays }
{}

pub fn never_below_stands()
    ensures { NeverBelow }
{}

pub fn fails_is_stands()
    ensures { FailsIs }
{}

pub fn refused_by_card_stands()
    ensures { RefusedByCard }
{}

pub fn upheld_stays_stands()
    ensures { UpheldStays }
{}

pub fn refused_stays_stands()
    ensures { RefusedStays }
{}

pub fn upheld_by_advice_stands()
    ensures { UpheldByAdvice }
{}

pub fn one_course_stands()
    ensures { OneCourse }
{}
