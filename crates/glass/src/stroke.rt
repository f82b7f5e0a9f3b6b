// What is drawn on the glass, as data.
use crate::area::{Area, Position};

// The cell of a place where nothing is written.
pub const BLANK: u64 = 32;

// What a stroke does inside its area. A blank comes in where a cell would come from outside the area.
#[derive(Clone, Copy, Debug, PartialEq, Eq)]
pub enum Ink {
    Blank,
    BlankRow { row: u8 },
    Write { at: Position, cell: u64 },
    ShiftLeft { row: u8 },
    ShiftRight { row: u8 },
    ScrollUp,
    ScrollDown,
}

// One change of the glass: inside the area only, and by what is seen inside the area only.
#[derive(Clone, Copy, Debug, PartialEq, Eq)]
pub struct Stroke {
    pub area: Area,
    pub ink: Ink,
}
