// What a line asks for, and why it may be none.
ghost use Rattle.std.specs.Prelude.{◌≡◌, Some};
ghost use Rattle.requests.specs.Keywords.{why_of};

use std::error::Error;
use std::fmt;

// The bytes of `Feed` and `Items` are the words after the first; those of `Text` are what follows the first and a blank.
#[derive(Clone, Copy, Debug, PartialEq, Eq)]
pub enum Request {
    // a comment, or no words
    Nothing,
    On {
        set: u8,
        table: u8,
        brightness: u8,
        make: Make,
    },
    Room {
        places: u32,
    },
    Feed,
    Text,
    Tick {
        count: u32,
    },
    Painted,
    Waiting,
    Cell {
        column: u8,
        row: u8,
    },
    Cursor,
    Window {
        number: u8,
    },
    User {
        code: u8,
    },
    Macro {
        index: u32,
    },
    Lamp,
    Modes,
    Glass,
    Show,
    Items,
    Replay,
    Off,
}

// The make of a display's panel; a strip panel has so many places for changes.
#[derive(Clone, Copy, Debug, PartialEq, Eq)]
pub enum Make {
    Plain,
    Strip { places: u32 },
}

// Why a line is answered by an error.
#[derive(Clone, Copy, Debug, PartialEq, Eq)]
pub enum Mistake {
    Unknown,
    FewWords,
    ManyWords,
    NoNumber,
    LargeNumber,
    NoByte,
    NoMake,
    NoList,
    DisplayOff,
    DisplayOn,
}

impl Mistake {
    // The text by which it is told.
    pub fn why(self) -> &'static str
        ensures { result.now ≡ why_of self }
    {
        match self {
            Mistake::Unknown => "no such command",
            Mistake::FewWords => "too few words",
            Mistake::ManyWords => "too many words",
            Mistake::NoNumber => "a number has one to nine digits",
            Mistake::LargeNumber => "the number is too large",
            Mistake::NoByte => "a byte has two hex digits",
            Mistake::NoMake => "no such make of panel",
            Mistake::NoList => "the panel keeps no list of changes",
            Mistake::DisplayOff => "no display is on",
            Mistake::DisplayOn => "a display is on",
        }
    }
}

impl fmt::Display for Mistake {
    ghost output = { λ m. Some (why_of m) };

    fn fmt<W: fmt::Write>(&self, f: &mut fmt::Formatter<W>) -> fmt::Result {
        f.write_str(self.why())
    }
}

impl Error for Mistake {}

// The first word of a line.
#[derive(Clone, Copy, Debug, PartialEq, Eq)]
pub enum Keyword {
    On,
    Room,
    Feed,
    Text,
    Tick,
    Painted,
    Waiting,
    Cell,
    Cursor,
    Window,
    User,
    Macro,
    Lamp,
    Modes,
    Glass,
    Show,
    Items,
    Replay,
    Off,
}
