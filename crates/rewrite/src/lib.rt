// A file with a header of 48 bytes written anew in today's format, with the same survey.
#![tactic(auto)]

mod put;
pub mod rewritten;
