// What a byte does at rest, after ESC and after US.
ghost use Rattle.std.specs.Prelude.{◌≡◌};
ghost use Rattle.escpos.specs.Steps.{done, at_rest, after_esc, after_us};

use crate::reading::Reading;
use crate::transition::{change_pen, complete, fail, wait};
use commands::outcome::{Outcome, ReadFault, Transition};
use commands::words::{Command, ESC, Mark, Mode, Name, PenChange, Spot, US, Way};

// Blanks a row, and ends most of what is half read.
pub(crate) const CANCEL: u8 = 0x18;

#[inline(always)]
pub(crate) fn at_rest(byte: u8) -> Transition<Reading>
    ensures { result ≡ at_rest byte }
{
    match byte {
        0x08 => complete(Command::Move { way: Way::Left }),
        0x09 => complete(Command::Move { way: Way::Right }),
        0x0A => complete(Command::Move { way: Way::Down }),
        0x0B => complete(Command::Jump { spot: Spot::Home }),
        0x0C => complete(Command::Clear),
        0x0D => complete(Command::Jump {
            spot: Spot::RowStart,
        }),
        CANCEL => complete(Command::ClearRow),
        ESC => wait(Reading::AfterEsc),
        US => wait(Reading::AfterUs),
        0x20..=0xFF => complete(Command::Character {
            code: byte,
            mark: None,
        }),
        _ => Transition {
            next: Reading::Rest,
            outcome: Outcome::Ignored,
        },
    }
}

#[inline(always)]
pub(crate) fn after_esc(byte: u8) -> Transition<Reading>
    ensures { result ≡ after_esc byte }
{
    match byte {
        b'@' => complete(Command::Initialize),
        b'=' => wait(Reading::SelectN),
        b'W' => wait(Reading::WindowN),
        b'R' => wait(Reading::SetN),
        b't' => wait(Reading::TableN),
        b'%' => wait(Reading::UserN),
        b'?' => wait(Reading::ForgetN),
        b'&' => wait(Reading::DefineOne),
        _ => fail(ReadFault::Unknown {
            name: Name {
                first: ESC,
                second: byte,
            },
        }),
    }
}

fn set_mode(mode: Mode) -> Transition<Reading>
    ensures { result ≡ done (Command.Pen (PenChange.Mode mode)) }
{
    change_pen(PenChange::Mode { mode })
}

#[inline(always)]
pub(crate) fn after_us(byte: u8) -> Transition<Reading>
    ensures { result ≡ after_us byte }
{
    match byte {
        0x01 => set_mode(Mode::Overwrite),
        0x02 => set_mode(Mode::Vertical),
        0x03 => set_mode(Mode::Horizontal),
        0x0A => complete(Command::Move { way: Way::Up }),
        0x0D => complete(Command::Jump { spot: Spot::RowEnd }),
        b'B' => complete(Command::Jump { spot: Spot::Corner }),
        b'$' => wait(Reading::GoToX),
        b'C' => wait(Reading::CursorN),
        b'X' => wait(Reading::BrightnessN),
        b'E' => wait(Reading::BlinkN),
        b'.' => wait(Reading::MarkedN { mark: Mark::Point }),
        b',' => wait(Reading::MarkedN { mark: Mark::Comma }),
        b';' => wait(Reading::MarkedN {
            mark: Mark::Semicolon,
        }),
        b':' => complete(Command::Record),
        b'^' => wait(Reading::PlayN),
        _ => fail(ReadFault::Unknown {
            name: Name {
                first: US,
                second: byte,
            },
        }),
    }
}
