// The rules of the game, and what holds of them.
#![tactic(auto)]

pub mod legal;
pub mod play;
pub mod stands;
pub mod taker;
pub mod turn;
