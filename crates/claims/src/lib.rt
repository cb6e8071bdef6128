// Claims of the tricks left, judged; advice, and playing on by it; and both from bytes to the answer.
#![tactic(auto)]

pub mod advice;
pub mod bytes;
pub mod claim;
mod failing;
pub mod judge;
pub mod play_on;
pub mod replies;
pub mod stands;
mod tried;
mod turns;
