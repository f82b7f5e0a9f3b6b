// The state of a display but for its glass: what a byte and a tick do to it, and what is then to be drawn.
#![tactic(auto)]

pub mod cell;
pub mod controller;
pub mod lamp;
pub mod listener;
pub mod moves;
pub mod slots;
pub mod tape;
pub mod users;
pub mod windows;
