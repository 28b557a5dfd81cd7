// Weld seams under the tape: by how much they make a circumference come out long.
#![tactic(auto)]

pub mod rise;
pub mod seam;
