// What a byte does as an operand of ESC &: 1, the first and the last code, then a length and as many columns for each character.
ghost use Rattle.std.specs.Prelude.{◌≡◌, IsTrue};
ghost use Rattle.escpos.specs.Steps.{defined, step};
ghost use Rattle.escpos.specs.Groups.{is_of_character};

use crate::columns::Columns;
use crate::names::DEFINE;
use crate::reading::Reading;
use crate::transition::{complete, off, wait};
use commands::outcome::{Outcome, Transition};
use commands::words::Command;

const BLANK: [u8; 5] = [0; 5];

// The item ends with its last character; before that the length of the next one follows.
fn character(code: u8, last: u8, columns: [u8; 5]) -> Transition<Reading>
    ensures { result ≡ defined code last columns }
{
    if code < last {
        Transition {
            next: Reading::DefineLength {
                code: code + 1,
                last,
            },
            outcome: Outcome::Partial { code, columns },
        }
    } else {
        complete(Command::Define { code, columns })
    }
}

fn column(code: u8, last: u8, columns: Columns, byte: u8) -> Transition<Reading>
    ensures { result ≡ step (Reading.DefineColumn code last columns) byte }
{
    let mut read = columns.columns;
    read[columns.at as usize] = byte;
    let at = columns.at + 1;
    if at < columns.size {
        wait(Reading::DefineColumn {
            code,
            last,
            columns: Columns {
                columns: read,
                at,
                size: columns.size,
            },
        })
    } else {
        character(code, last, read)
    }
}

// A character without columns is complete with its length.
#[inline(always)]
pub(crate) fn of_character(reading: Reading, byte: u8) -> Transition<Reading>
    requires { IsTrue (is_of_character reading) }
    ensures { result ≡ step reading byte }
{
    match (reading, byte) {
        (Reading::DefineOne, 1) => wait(Reading::DefineFirst),
        (Reading::DefineOne, _) => off(DEFINE, 1),
        (Reading::DefineFirst, 0x20..=0xFF) => wait(Reading::DefineLast { first: byte }),
        (Reading::DefineFirst, _) => off(DEFINE, 2),
        (Reading::DefineLast { first }, last) if first <= last => {
            wait(Reading::DefineLength { code: first, last })
        }
        (Reading::DefineLast { .. }, _) => off(DEFINE, 3),
        (Reading::DefineLength { code, last }, 0) => character(code, last, BLANK),
        (Reading::DefineLength { code, last }, 1..=5) => wait(Reading::DefineColumn {
            code,
            last,
            columns: Columns {
                columns: BLANK,
                at: 0,
                size: byte,
            },
        }),
        (Reading::DefineLength { .. }, _) => off(DEFINE, 4),
        (
            Reading::DefineColumn {
                code,
                last,
                columns,
            },
            _,
        ) => column(code, last, columns, byte),
        _ => unreachable!(),
    }
}
