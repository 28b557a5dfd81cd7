// How high the liquid stands in a part of the tank, by the dip height: a room of its own, since only who lists it can name a shell height.
#![tactic(auto)]

pub mod shell_height;
