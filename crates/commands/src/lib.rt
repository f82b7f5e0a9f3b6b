// The words that every command set speaks, and what a command set is.
#![tactic(auto)]

pub mod outcome;
pub mod sets;
pub mod words;
