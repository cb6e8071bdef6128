// Theorems about values as text: each function's contract is one.
ghost use Rattle.text.specs.Apart.{CardsApart};
ghost use Rattle.text.specs.Samples.{Samples};

pub fn cards_apart_stands()
    ensures { CardsApart }
{}

pub fn samples_stand()
    ensures { Samples }
{}
