// The form of a survey file: its size, the counts and places of its sections, and the head kind (refusals 1 to 4).
#![tactic(auto)]

pub mod tests;
