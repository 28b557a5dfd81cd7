// The domes of a tank with spherical cap heads, worked out: the widths of a dome, and the totals of its cells as a walk up the levels.
#![tactic(auto)]

mod bounds;
pub mod dome;
mod face;
mod level;
pub mod walk;
mod widths;
