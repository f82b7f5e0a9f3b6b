// The controller: all of a display but its glass.
ghost use Rattle.std.specs.Prelude.{◌≡◌, ⊤};

use crate::cell::Pen;
use crate::lamp::Lamp;
use crate::listener::Listener;
use crate::tape::Tape;
use crate::users::Users;
use crate::windows::Windows;
use glass::stroke::Stroke;
use std::alloc::AllocError;
use terms::fault::Fault;
use terms::settings::Settings;

mod carry;
mod events;
pub mod questions;
pub mod short;

// All of a display but its glass and what it reads.
#[derive(Clone, Copy)]
pub struct Machine {
    settings: Settings,
    windows: Windows,
    pen: Pen,
    shown: bool,
    brightness: u8,
    lamp: Lamp,
    selected: bool,
    users: Users,
    tape: Tape,
}

// A machine, and what it reads: over any command sets.
#[derive(Copy)]
pub struct Controller<S> {
    listener: Listener<S>,
    machine: Machine,
}

// By hand, as the listener's is.
impl<S: Copy> Clone for Controller<S> {
    ghost is_clone = { λ controller copy. copy ≡ controller };

    ghost is_infallible = { λ _. ⊤ };

    fn clone(&self) -> Result<Controller<S>, AllocError> {
        Ok(*self)
    }
}

// What a command draws, in order: never more than two, and no heap is needed.
#[derive(Clone, Copy, Debug, PartialEq, Eq)]
pub struct Strokes {
    pub first: Option<Stroke>,
    pub second: Option<Stroke>,
}

// What a byte draws, and the fault that it gives, when it is read.
#[derive(Clone, Copy, Debug, PartialEq, Eq)]
pub struct Reply {
    pub strokes: Strokes,
    pub fault: Option<Fault>,
}

// What a byte of the host draws and gives.
#[derive(Clone, Copy, Debug, PartialEq, Eq)]
pub struct HostReply {
    // the end of a playback blanks the window before the byte is read
    pub ending: Option<Stroke>,
    // a recording that is too long comes before any other fault
    pub overflow: Option<Fault>,
    pub reply: Reply,
}
