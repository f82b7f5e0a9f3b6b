// What a byte does as an operand of ESC W: the window, what to do with it, and the area of one that is defined.
ghost use Rattle.std.specs.Prelude.{◌≡◌, IsTrue};
ghost use Rattle.escpos.specs.Steps.{done, step};
ghost use Rattle.escpos.specs.Groups.{is_of_window};
ghost use Rattle.escpos.specs.Names.{window};

use crate::names::WINDOW;
use crate::reading::Reading;
use crate::transition::{complete, off, wait};
use commands::outcome::Transition;
use commands::words::{Command, Slot, WindowChange};
use glass::area::{Area, Position};
use glass::frame::{Column, Frame, GlassPosition};

// Window 0 is the whole glass, 1 to 4 can be defined.
fn number(byte: u8) -> Transition<Reading>
    ensures { result ≡ step Reading.WindowN byte }
{
    match (byte, Slot::try_from(byte)) {
        (0, _) => wait(Reading::WindowS { window: None }),
        (_, Ok(slot)) => wait(Reading::WindowS { window: Some(slot) }),
        _ => off(WINDOW, 1),
    }
}

fn change_window(change: WindowChange) -> Transition<Reading>
    ensures { result ≡ done (Command.Window change window) }
{
    complete(Command::Window {
        change,
        name: WINDOW,
    })
}

// The whole glass can be turned to, and is neither defined nor cancelled.
fn action(window: Option<Slot>, byte: u8) -> Transition<Reading>
    ensures { result ≡ step (Reading.WindowS window) byte }
{
    match (window, byte) {
        (_, 2 | b'2') => change_window(WindowChange::TurnTo { window }),
        (Some(slot), 1 | b'1') => wait(Reading::WindowX1 { slot }),
        (Some(slot), 0 | b'0') => change_window(WindowChange::Cancel { slot }),
        _ => off(WINDOW, 2),
    }
}

#[inline(always)]
pub(crate) fn of_window(reading: Reading, byte: u8) -> Transition<Reading>
    requires { IsTrue (is_of_window reading) }
    ensures { result ≡ step reading byte }
{
    match (reading, byte) {
        (Reading::WindowN, _) => number(byte),
        (Reading::WindowS { window }, _) => action(window, byte),
        (Reading::WindowX1 { slot }, 1..=20) => wait(Reading::WindowY1 {
            slot,
            x1: Column { number: byte },
        }),
        (Reading::WindowX1 { .. }, _) => off(WINDOW, 3),
        (Reading::WindowY1 { slot, x1 }, 1..=2) => wait(Reading::WindowX2 {
            slot,
            corner: GlassPosition {
                at: Position {
                    column: x1.number,
                    row: byte,
                },
            },
        }),
        (Reading::WindowY1 { .. }, _) => off(WINDOW, 4),
        (Reading::WindowX2 { slot, corner }, x2) if corner.at.column <= x2 && x2 <= 20 => {
            wait(Reading::WindowY2 {
                slot,
                frame: Frame {
                    area: Area {
                        x1: corner.at.column,
                        y1: corner.at.row,
                        x2,
                        y2: corner.at.row,
                    },
                },
            })
        }
        (Reading::WindowX2 { .. }, _) => off(WINDOW, 5),
        (Reading::WindowY2 { slot, frame }, y2) if frame.area.y1 <= y2 && y2 <= 2 => {
            change_window(WindowChange::Define {
                slot,
                frame: Frame {
                    area: Area { y2, ..frame.area },
                },
            })
        }
        (Reading::WindowY2 { .. }, _) => off(WINDOW, 6),
        _ => unreachable!(),
    }
}
