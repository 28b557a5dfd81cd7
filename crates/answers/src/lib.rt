// The library's answers as plain numbers, and its refusals in words, for programs in C.
#![tactic(auto)]

pub mod plain_numbers;
pub mod words;
