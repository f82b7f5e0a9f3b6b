// What a byte does as an operand of a command that begins with US, or of one of a single operand that begins with ESC.
ghost use Rattle.std.specs.Prelude.{◌≡◌, IsTrue};
ghost use Rattle.escpos.specs.Steps.{step};
ghost use Rattle.escpos.specs.Groups.{is_of_us, is_of_esc};

use crate::names::{BRIGHTNESS, CURSOR, FORGET, GO_TO, PLAY, SELECT, SET, TABLE, USER, marked};
use crate::reading::Reading;
use crate::transition::{change_pen, complete, off, wait};
use commands::outcome::Transition;
use commands::words::{Command, PenChange};
use glass::area::Position;
use glass::frame::{Column, GlassPosition};

#[inline(always)]
pub(crate) fn of_us(reading: Reading, byte: u8) -> Transition<Reading>
    requires { IsTrue (is_of_us reading) }
    ensures { result ≡ step reading byte }
{
    match (reading, byte) {
        (Reading::GoToX, 1..=20) => wait(Reading::GoToY {
            x: Column { number: byte },
        }),
        (Reading::GoToX, _) => off(GO_TO, 1),
        (Reading::GoToY { x }, 1..=2) => complete(Command::GoTo {
            to: GlassPosition {
                at: Position {
                    column: x.number,
                    row: byte,
                },
            },
            name: GO_TO,
        }),
        (Reading::GoToY { .. }, _) => off(GO_TO, 2),
        (Reading::CursorN, 0 | b'0') => complete(Command::Cursor { shown: false }),
        (Reading::CursorN, 1 | b'1') => complete(Command::Cursor { shown: true }),
        (Reading::CursorN, _) => off(CURSOR, 1),
        (Reading::BrightnessN, 1..=4) => complete(Command::Brightness { level: byte }),
        (Reading::BrightnessN, _) => off(BRIGHTNESS, 1),
        (Reading::BlinkN, _) => complete(Command::Blink { period: byte }),
        (Reading::MarkedN { mark }, 0x20..=0xFF) => complete(Command::Character {
            code: byte,
            mark: Some(mark),
        }),
        (Reading::MarkedN { mark }, _) => off(marked(mark), 1),
        (Reading::PlayN, 1..=0xFF) => wait(Reading::PlayM { wait: byte }),
        (Reading::PlayN, _) => off(PLAY, 1),
        (Reading::PlayM { wait }, _) => complete(Command::Play {
            wait,
            gap: byte,
            name: PLAY,
        }),
        _ => unreachable!(),
    }
}

#[inline(always)]
pub(crate) fn of_esc(reading: Reading, byte: u8) -> Transition<Reading>
    requires { IsTrue (is_of_esc reading) }
    ensures { result ≡ step reading byte }
{
    match (reading, byte) {
        (Reading::SelectN, 1 | b'1') => complete(Command::Select { on: false }),
        (Reading::SelectN, 2..=3 | b'2'..=b'3') => complete(Command::Select { on: true }),
        (Reading::SelectN, _) => off(SELECT, 1),
        (Reading::SetN, 0..=12) => change_pen(PenChange::Set { number: byte }),
        (Reading::SetN, _) => off(SET, 1),
        (Reading::TableN, 0..=8) => change_pen(PenChange::Table { number: byte }),
        (Reading::TableN, _) => off(TABLE, 1),
        (Reading::UserN, 0 | b'0') => change_pen(PenChange::User { on: false }),
        (Reading::UserN, 1 | b'1') => change_pen(PenChange::User { on: true }),
        (Reading::UserN, _) => off(USER, 1),
        (Reading::ForgetN, 0x20..=0xFF) => complete(Command::Forget { code: byte }),
        (Reading::ForgetN, _) => off(FORGET, 1),
        _ => unreachable!(),
    }
}
