// Items as text, each after a separator.
ghost use Rattle.std.specs.Prelude.{◌≡◌, ℕ, List, Some};
ghost use Rattle.std.specs.Fmt.{WritesOnOk, DisplaysOnOk, ◌++?◌};
ghost use Rattle.text.specs.Each.{each_after};

use crate::Shown;
use std::fmt;

// An item that stands after others.
fn show_next<T: Copy, W: fmt::Write>(
    separator: &str,
    item: T,
    f: &mut fmt::Formatter<W>,
) -> fmt::Result
where
    Shown<T>: fmt::Display,
    ensures { DisplaysOnOk W.write_str_gives f.old result (Some separator.now ++? ⟦<Shown<T> as fmt::Display>⟧.output (record { 0 = item })) f.new }
{
    write!(f, "{separator}{}", Shown(item))
}

// Items that stand after others, a separator before each.
pub(crate) fn show_each<T: Copy, W: fmt::Write>(
    separator: &str,
    items: &[T],
    f: &mut fmt::Formatter<W>,
) -> fmt::Result
where
    Shown<T>: fmt::Display,
    ensures { (text : T → List ℕ) → ((x : T) → ⟦<Shown<T> as fmt::Display>⟧.output (record { 0 = x }) ≡ Some (text x)) → WritesOnOk W.write_str_gives f.old result (each_after separator.now text items.now) f.new }
{
    for item in items {
        show_next(separator, *item, f)?;
    }
    Ok(())
}
