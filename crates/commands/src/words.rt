// Commands, with their operands as they were checked, grouped as they are carried out.
ghost use Rattle.std.specs.Prelude.{◌≡◌};
ghost use Rattle.commands.specs.Numbers.{mark_number, mark_numbered, mark_byte, mode_number, slot_number, slot_numbered, refusal_cause};

use glass::frame::{Frame, GlassPosition};

/// The byte that opens most commands on user characters and windows.
pub const ESC: u8 = 0x1B;

/// The byte that opens the other commands.
pub const US: u8 = 0x1F;

/// What is lit beside a character.
#[derive(Clone, Copy, Debug, PartialEq, Eq)]
pub enum Mark {
    Point = 1,
    Comma = 2,
    Semicolon = 3,
}

/// What happens at the end of a row.
#[derive(Clone, Copy, Debug, PartialEq, Eq)]
pub enum Mode {
    Overwrite = 1,
    Vertical = 2,
    Horizontal = 3,
}

/// The number of a window that can be defined, 1 to 4.
#[derive(Clone, Copy, Debug, PartialEq, Eq)]
pub enum Slot {
    First = 1,
    Second = 2,
    Third = 3,
    Fourth = 4,
}

/// A way in which the cursor goes by one place.
#[derive(Clone, Copy, Debug, PartialEq, Eq)]
pub enum Way {
    Left,
    Right,
    Down,
    Up,
}

/// A spot of the current window to which the cursor jumps.
#[derive(Clone, Copy, Debug, PartialEq, Eq)]
pub enum Spot {
    Home,
    RowStart,
    RowEnd,
    Corner,
}

/// A change of how characters are written.
#[derive(Clone, Copy, Debug, PartialEq, Eq)]
pub enum PenChange {
    Mode { mode: Mode },
    Set { number: u8 },
    Table { number: u8 },
    // whether user characters are in use
    User { on: bool },
}

/// A change of the windows. A window `None` is window 0, the whole glass.
#[derive(Clone, Copy, Debug, PartialEq, Eq)]
pub enum WindowChange {
    Define { slot: Slot, frame: Frame },
    Cancel { slot: Slot },
    TurnTo { window: Option<Slot> },
}

/// The first two bytes of a command, by which its faults name it.
#[derive(Clone, Copy, Debug, PartialEq, Eq)]
pub struct Name {
    pub first: u8,
    pub second: u8,
}

/// A character or a command. What a display can refuse bears its name.
#[derive(Clone, Copy, Debug, PartialEq, Eq)]
pub enum Command {
    Character { code: u8, mark: Option<Mark> },
    Move { way: Way },
    Jump { spot: Spot },
    // to a column and a row counted from the window's corner
    GoTo { to: GlassPosition, name: Name },
    Clear,
    ClearRow,
    Pen { change: PenChange },
    Cursor { shown: bool },
    Brightness { level: u8 },
    Blink { period: u8 },
    Window { change: WindowChange, name: Name },
    Define { code: u8, columns: [u8; 5] },
    Forget { code: u8 },
    Record,
    Play { wait: u8, gap: u8, name: Name },
    Select { on: bool },
    Initialize,
}

/// Why a display refuses a command that is well formed.
#[derive(Clone, Copy, Debug, PartialEq, Eq)]
pub enum Refusal {
    WindowDefined = 3,
    WindowTouches = 4,
    WindowUndefined = 5,
    OutsideWindow = 6,
    PlayRefused = 7,
    NoMacro = 8,
    RecordingFull = 9,
}

/// The command sets, by name.
#[derive(Clone, Copy, Debug, PartialEq, Eq)]
pub enum Dialect {
    EscPos = 1,
}

// The number by which it is told.
impl From<Mark> for u8 {
    ghost from_gives = { λ mark number. number ≡ mark_number mark };

    fn from(mark: Mark) -> u8 {
        mark as u8
    }
}

/// A number that no mark has.
#[derive(Clone, Copy, Debug, PartialEq, Eq)]
pub struct NoMark;

impl TryFrom<u8> for Mark {
    type Error = NoMark;

    ghost try_from_gives = { λ number mark. mark ≡ mark_numbered number };

    fn try_from(number: u8) -> Result<Mark, NoMark> {
        match number {
            1 => Ok(Mark::Point),
            2 => Ok(Mark::Comma),
            3 => Ok(Mark::Semicolon),
            _ => Err(NoMark),
        }
    }
}

// The sign of a mark, as it is written.
impl From<Mark> for char {
    ghost from_gives = { λ mark sign. sign ≡ mark_byte mark };

    fn from(mark: Mark) -> char {
        match mark {
            Mark::Point => '.',
            Mark::Comma => ',',
            Mark::Semicolon => ';',
        }
    }
}

// The number by which it is told.
impl From<Mode> for u8 {
    ghost from_gives = { λ mode number. number ≡ mode_number mode };

    fn from(mode: Mode) -> u8 {
        mode as u8
    }
}

/// A number that no slot has.
#[derive(Clone, Copy, Debug, PartialEq, Eq)]
pub struct NoSlot;

impl TryFrom<u8> for Slot {
    type Error = NoSlot;

    ghost try_from_gives = { λ number slot. slot ≡ slot_numbered number };

    fn try_from(number: u8) -> Result<Slot, NoSlot> {
        match number {
            1 => Ok(Slot::First),
            2 => Ok(Slot::Second),
            3 => Ok(Slot::Third),
            4 => Ok(Slot::Fourth),
            _ => Err(NoSlot),
        }
    }
}

// The number by which it is told; the whole glass is window 0.
impl From<Slot> for u8 {
    ghost from_gives = { λ slot number. number ≡ slot_number slot };

    fn from(slot: Slot) -> u8 {
        slot as u8
    }
}

// The cause by which it is told.
impl From<Refusal> for u8 {
    ghost from_gives = { λ refusal cause. cause ≡ refusal_cause refusal };

    fn from(refusal: Refusal) -> u8 {
        refusal as u8
    }
}
