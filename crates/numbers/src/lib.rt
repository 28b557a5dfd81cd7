// The numbers of a survey file: their limits, and refusal 5 of every number as it stands.
#![tactic(auto)]

mod header;
pub mod limits;
pub mod numbers;
mod record_tests;
