// The dimensions of a tank from a survey file's numbers, and refusals 6, 7 and 14.
#![tactic(auto)]

pub mod dimensions;
pub mod judge;
pub mod sums;
