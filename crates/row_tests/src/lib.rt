// Net rows in memory: refusals 8 and 9 on them, and the copy of rows that are not refused to a lent table.
#![tactic(auto)]

pub mod copy;
pub mod tests;
