// What the lines of a script ask of a display: the requests, and a line's words read as one.
#![tactic(auto)]

pub mod parse;
pub mod requests;
