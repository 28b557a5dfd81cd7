// What is said of an answer in hand, put into lent memory: a text for standard output and one for standard error. Both memories are the caller's, who
// writes each to a stream of its own.
#![tactic(auto)]

pub mod answers;
pub mod file;
pub mod refused;
pub mod rows;

// How many bytes each of the two texts has.
#[derive(Clone, Copy)]
pub struct Said {
    pub out: usize,
    pub err: usize,
}

// Room for the text of a whole table, for the line of a lookup's answer, and for what is said on standard error.
pub const OUT_SIZE: usize = 131_072;

pub const LINE_SIZE: usize = 32;

pub const ERR_SIZE: usize = 256;
