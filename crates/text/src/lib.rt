// Cards, tables, refusals, judgements and plays as text. None ends with a newline.
#![tactic(auto)]

pub mod card;
pub mod deal;
mod each;
pub mod hand;
pub mod judgement;
pub mod plays;
pub mod refusal;
pub mod row;
pub mod stands;

// A value of the game that is shown as text.
#[derive(Clone, Copy, Drop)]
pub struct Shown<T>(pub T);
