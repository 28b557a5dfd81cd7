// Deadwood: a tank's fittings, and the room that they take at a dip height.
#![tactic(auto)]

pub mod item;
mod share;
pub mod sum;
