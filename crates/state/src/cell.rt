// The cell of a character: its code, table, set and mark in one number.
ghost use Rattle.std.specs.Prelude.{◌≡◌, ◌^◌, ◌<◌};
ghost use Rattle.state.specs.Cells.{built_in, user_cell, user_bits, cell_of, mark_of};

use commands::words::{Mark, Mode};

// How characters are written: in which mode, by which international set and code table, and whether by user characters.
#[derive(Clone, Copy, Debug, PartialEq, Eq)]
pub struct Pen {
    pub mode: Mode,
    pub set: u8,
    pub table: u8,
    pub user: bool,
}

const TABLE: u64 = 0x100;

const SET: u64 = 0x1_0000;

const MARK: u64 = 0x100_0000_0000;

const USER: u64 = 0x400_0000_0000;

fn mark_of(mark: Option<Mark>) -> u8
    ensures { result ≡ mark_of mark }
{
    mark.map_or(0, u8::from)
}

// The cell of a built-in character.
pub(crate) fn built_in(code: u8, pen: Pen, mark: Option<Mark>) -> u64
    ensures { result ≡ built_in code pen mark }
{
    code as u64 + TABLE * pen.table as u64 + SET * pen.set as u64 + MARK * mark_of(mark) as u64
}

// The five columns of a user character in one number, the first lowest.
pub(crate) fn user_bits(columns: [u8; 5]) -> u64
    ensures bits { result ≡ user_bits columns }
    ensures small { result < 2 ^ 40 }
{
    let [a, b, c, d, e] = columns;
    u64::from_le_bytes([a, b, c, d, e, 0, 0, 0])
}

// The cell of a character: the user's where one is defined and in use, and else the built-in one.
pub(crate) fn cell_of(code: u8, pen: Pen, user: Option<[u8; 5]>, mark: Option<Mark>) -> u64
    ensures { result ≡ cell_of code pen user mark }
{
    match user {
        Some(columns) if pen.user => user_bits(columns) + USER + MARK * mark_of(mark) as u64,
        _ => built_in(code, pen, mark),
    }
}
