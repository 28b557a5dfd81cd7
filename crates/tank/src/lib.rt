// A tank and its gross volume: its parts, the limits of their lengths, and how far they are filled.
#![tactic(auto)]

pub mod cylinder;
pub mod filling;
pub mod limits;
pub mod tank;
