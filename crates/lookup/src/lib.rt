// The lookups on a lent table, whoever made it: litres at a height, litres delivered between two, and the lowest height for a volume.
#![tactic(auto)]

pub mod delivered;
pub mod height;
mod line;
pub mod litres;
mod table;
