// The readings of a course, less the tape rise over its seams; and the whole of refusal 5.
#![tactic(auto)]

pub mod rise;
pub mod tests;
