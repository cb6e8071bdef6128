// Theorems about cards that are as good as each other: each function's contract is one.
ghost use Rattle.equals.specs.Equals.{AsGood, RowAsGood};

pub fn as_good_stands()
    ensures { AsGood }
{}

pub fn row_as_good_stands()
    ensures { RowAsGood }
{}
