// What a byte amounts to when it is read.
use crate::words::{Command, Mark, Name};
use glass::frame::GlassPosition;

/// A command that is malformed, by its own first two bytes and, where one is off, the number of the operand, from 1.
#[derive(Clone, Copy, Debug, PartialEq, Eq)]
pub enum ReadFault {
    Unknown { name: Name },
    OutOfRange { name: Name, operand: u8 },
}

/// What a byte amounts to.
#[derive(Clone, Copy, Debug, PartialEq, Eq)]
pub enum Outcome {
    // the byte belongs to an item that goes on
    Pending,
    // the byte is ignored, an item by itself
    Ignored,
    // the item ends, and is this character or command
    Complete { command: Command },
    // a user character is complete, and its item goes on
    Partial { code: u8, columns: [u8; 5] },
    // the item ends, malformed
    Faulty { fault: ReadFault },
}

/// What a byte leaves of a reading, and what it amounts to.
#[derive(Clone, Copy, Debug, PartialEq, Eq)]
pub struct Transition<R> {
    pub next: R,
    pub outcome: Outcome,
}

/// What a byte amounts to, where a command set can say it at a glance.
#[derive(Clone, Copy, Debug, PartialEq, Eq)]
pub enum Glance {
    // it is not read yet
    Unread,
    // the item goes on
    Pending,
    // the byte is a character, with a mark or without
    Character { mark: Option<Mark> },
    // the cursor goes to a column and a row of the window
    GoTo { to: GlassPosition, name: Name },
}
