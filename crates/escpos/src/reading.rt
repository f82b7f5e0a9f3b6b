// The readings of ESC/POS.
use crate::columns::Columns;
use commands::words::{Mark, Slot};
use glass::frame::{Column, Frame, GlassPosition};

/// How far an item is read: the operand that comes next is in the name, those before it are the fields.
#[derive(Clone, Copy, Debug, PartialEq, Eq)]
pub enum Reading {
    Rest,
    AfterEsc,
    AfterUs,
    GoToX,
    GoToY {
        x: Column,
    },
    CursorN,
    BrightnessN,
    BlinkN,
    MarkedN {
        mark: Mark,
    },
    PlayN,
    PlayM {
        wait: u8,
    },
    SelectN,
    SetN,
    TableN,
    UserN,
    ForgetN,
    WindowN,
    WindowS {
        window: Option<Slot>,
    },
    WindowX1 {
        slot: Slot,
    },
    WindowY1 {
        slot: Slot,
        x1: Column,
    },
    WindowX2 {
        slot: Slot,
        corner: GlassPosition,
    },
    // the frame of one row that is read so far
    WindowY2 {
        slot: Slot,
        frame: Frame,
    },
    DefineOne,
    DefineFirst,
    DefineLast {
        first: u8,
    },
    DefineLength {
        code: u8,
        last: u8,
    },
    DefineColumn {
        code: u8,
        last: u8,
        columns: Columns,
    },
}
