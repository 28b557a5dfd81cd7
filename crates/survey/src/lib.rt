// The whole of a survey file: all its tests in their order, and the survey that it holds. Nobody above sees a byte of it but who writes an old file anew.
#![tactic(auto)]

pub mod decode;
mod judge;
