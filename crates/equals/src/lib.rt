// Cards that are as good as each other, and the lowest of them.
#![tactic(auto)]

mod in_play;
pub mod lowest;
pub mod stands;
