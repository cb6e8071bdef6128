// Theorems about the worth of a table: each function's contract is one.
ghost use Rattle.worth.specs.Statements.{OneWorth, Fewer, AtMost, BothSides, OtherSide, ValueIsWorth};

pub fn one_worth_stands()
    ensures { OneWorth }
{}

pub fn fewer_stands()
    ensures { Fewer }
{}

pub fn at_most_stands()
    ensures { AtMost }
{}

pub fn both_sides_stands()
    ensures { BothSides }
{}

pub fn other_side_stands()
    ensures { OtherSide }
{}

pub fn value_is_worth_stands()
    ensures { ValueIsWorth }
{}
