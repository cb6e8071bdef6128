// A row of cards, played on a table.
#![tactic(auto)]

pub mod row;
