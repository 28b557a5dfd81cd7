// The records of a survey file: deadwood and seam items, and a record as it is told, with the test of one of its numbers.
#![tactic(auto)]

pub mod item;
pub mod record;
