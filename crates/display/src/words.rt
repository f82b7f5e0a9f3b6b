// Questions, their answers, and the refusals of the calls.
ghost use Rattle.std.specs.Prelude.{◌≡◌};
ghost use Rattle.display.specs.Numbers.{feed_refusal, ask_refusal};

use glass::area::{Area, Position};
use state::controller::questions::Modes;

#[derive(Clone, Copy, Debug, PartialEq, Eq)]
pub enum Question {
    Cell { column: u8, row: u8 },
    Cursor,
    Window { number: u8 },
    User { code: u8 },
    // a byte of the macro, counted from 1
    Macro { index: usize },
    Lamp,
    Modes,
}

// `None` is for what is undefined or off its table.
#[derive(Clone, Copy, Debug, PartialEq, Eq)]
pub enum Answer {
    Cell { cell: u64 },
    Cursor { cursor: Position },
    Window { area: Option<Area> },
    User { bits: Option<u64> },
    Macro { byte: Option<u8> },
    Lamp { lit: bool },
    Modes { modes: Modes },
}

#[derive(Clone, Copy, Debug, PartialEq, Eq)]
pub enum FeedRefusal {
    LongPiece = 21,
    FewPlaces = 22,
}

#[derive(Clone, Copy, Debug, PartialEq, Eq)]
pub enum AskRefusal {
    OffGlass = 31,
}

// The number by which it is told.
impl From<FeedRefusal> for u8 {
    ghost from_gives = { λ refusal number. number ≡ feed_refusal refusal };

    fn from(refusal: FeedRefusal) -> u8 {
        refusal as u8
    }
}

// The number by which it is told.
impl From<AskRefusal> for u8 {
    ghost from_gives = { λ refusal number. number ≡ ask_refusal refusal };

    fn from(refusal: AskRefusal) -> u8 {
        refusal as u8
    }
}
