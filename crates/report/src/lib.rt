// What the programs say, put into lent memory: the whole of what they print follows from the survey's bytes and the figures that they are
// asked for.
// Two memories are lent, `out` and `err`: each text stands at the start of its own and goes to a stream of its own.
#![tactic(auto)]

pub mod capacity_table;
pub mod conversion;
pub mod lookups;
