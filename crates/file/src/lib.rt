// The bytes of a survey file: its words, where each number stands, its formats and sections.
#![tactic(auto)]

pub mod format;
pub mod layout;
pub mod section;
pub mod word;
