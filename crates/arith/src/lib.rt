// Arithmetic on machine numbers, each function equal to its definition: the nearest quotient, the nearest quotient of a product
// that passes 64 bits, the integer root, and a sign put on a size. What they ask are bounds of one number each, so that nothing passes 64 bits.
#![tactic(auto)]

pub mod nearest;
pub mod product;
pub mod root;
pub mod signed;
