// From a survey to its capacity table.
#![tactic(auto)]

pub mod judge;
pub mod make;
