// The heads of a tank, by their kind: a file for each question that a kind answers.
#![tactic(auto)]

pub mod heads;
pub mod kind;
pub mod length;
pub mod volume;
pub mod walk;
