// The circle of a lying tank: its chords, and the area below a height.
#![tactic(auto)]

mod chord;
pub mod walk;
