// The text of a script for a display: its lines, their words, and the numbers and bytes that these write. And what a
// cell shows in a picture.
#![tactic(auto)]

pub mod cells;
pub mod digits;
pub mod lines;
pub mod words;
