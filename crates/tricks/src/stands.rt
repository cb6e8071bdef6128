// Theorems about the rules: each function's contract is one.
ghost use Rattle.tricks.specs.Statements.{SomebodyMay, KeepsSound, StaysSound, StaysSoundAnywhere, Worked};

pub fn somebody_may_stands()
    ensures { SomebodyMay }
{}

pub fn keeps_sound_stands()
    ensures { KeepsSound }
{}

pub fn stays_sound_stands()
    ensures { StaysSound }
{}

pub fn stays_sound_anywhere_fails()
    ensures { StaysSoundAnywhere → ⊥ }
{}

pub fn worked_tables_stand()
    ensures { Worked }
{}
