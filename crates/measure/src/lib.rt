// The quantities of the papers, each a type of its own, so that none is taken for another: dip height, volume and diameter. A
// number goes in and out at the edge of a program. The shell height stands in a crate above, `correction`, so that those who make
// dip heights of numbers can't name one.
// The way out is `units` and no conversion, so that its name stands wherever a quantity becomes a number.
#![tactic(auto)]

pub mod diameter;
pub mod dip_height;
pub mod pi;
pub mod volume;
