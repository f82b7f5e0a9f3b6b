// ESC/POS: the readings, what one byte does to a reading, and the classes of the bytes.
#![tactic(auto)]

mod characters;
pub mod classes;
pub mod columns;
mod names;
mod openings;
mod operands;
pub mod reading;
pub mod take;
mod transition;
mod windows;
