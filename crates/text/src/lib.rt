// Text put into lent memory, each piece equal to its definition.
#![tactic(auto)]

pub mod grouped;
pub mod put;
