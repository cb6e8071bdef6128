// The worth of a table: the tricks that our side takes if both sides play as well as can be.
#![tactic(auto)]

pub mod call;
pub mod positions;
pub mod search;
pub mod stands;
mod window;
