// Digits, and numbers with a separator between them: what the spellings of a record's data have in common.
#![tactic(auto)]

pub mod digit;
pub mod field;
