// What one byte does to a reading: ESC/POS as a command set.
ghost use Rattle.std.specs.Prelude.{◌≡◌};
ghost use Rattle.commands.specs.Sets.{run, six};
ghost use Rattle.escpos.specs.declared.reading.Reading.{Reading};
ghost use Rattle.escpos.specs.Steps.{step};
ghost use Rattle.escpos.specs.Laws.{escpos, escpos_laws};
ghost use Rattle.escpos.specs.Cancels.{CancelOutcome};

use crate::characters::of_character;
use crate::names::GO_TO;
use crate::openings::{CANCEL, after_esc, after_us, at_rest};
use crate::operands::{of_esc, of_us};
use crate::reading::Reading;
use crate::windows::of_window;
use commands::outcome::{Glance, Outcome, Transition};
use commands::sets::CommandSet;
use commands::words::{ESC, Mark, US};
use glass::area::Position;
use glass::frame::{Column, GlassPosition};

impl Reading {
    #[inline(always)]
    fn step(self, byte: u8) -> Transition<Reading>
        ensures { result ≡ step self byte }
    {
        match self {
            Reading::Rest => at_rest(byte),
            Reading::AfterEsc => after_esc(byte),
            Reading::AfterUs => after_us(byte),
            Reading::GoToX
            | Reading::GoToY { .. }
            | Reading::CursorN
            | Reading::BrightnessN
            | Reading::BlinkN
            | Reading::MarkedN { .. }
            | Reading::PlayN
            | Reading::PlayM { .. } => of_us(self, byte),
            Reading::SelectN
            | Reading::SetN
            | Reading::TableN
            | Reading::UserN
            | Reading::ForgetN => of_esc(self, byte),
            Reading::WindowN
            | Reading::WindowS { .. }
            | Reading::WindowX1 { .. }
            | Reading::WindowY1 { .. }
            | Reading::WindowX2 { .. }
            | Reading::WindowY2 { .. } => of_window(self, byte),
            Reading::DefineOne
            | Reading::DefineFirst
            | Reading::DefineLast { .. }
            | Reading::DefineLength { .. }
            | Reading::DefineColumn { .. } => of_character(self, byte),
        }
    }

    // Any byte.
    #[inline(always)]
    fn any(&mut self, byte: u8) -> Outcome
        ensures next { self.new ≡ (step self.old byte).next }
        ensures outcome { result ≡ (step self.old byte).outcome }
    {
        let Transition { next, outcome } = self.step(byte);
        *self = next;
        outcome
    }
}

impl CommandSet for Reading {
    ghost make = { escpos };

    fn rest() -> Reading {
        Reading::Rest
    }

    #[inline(always)]
    fn take(&mut self, byte: u8) -> Outcome {
        self.any(byte)
    }

    #[inline(always)]
    fn glance(&mut self, byte: u8) -> Glance {
        if byte >= 0x20 {
            match self {
                Reading::Rest => Glance::Character { mark: None },
                Reading::MarkedN { mark } => {
                    let mark = *mark;
                    *self = Reading::Rest;
                    Glance::Character { mark: Some(mark) }
                }
                Reading::AfterUs if byte == b'$' => {
                    *self = Reading::GoToX;
                    Glance::Pending
                }
                Reading::AfterUs if byte == b'.' => {
                    *self = Reading::MarkedN { mark: Mark::Point };
                    Glance::Pending
                }
                _ => Glance::Unread,
            }
        } else {
            match self {
                Reading::Rest if byte == US => {
                    *self = Reading::AfterUs;
                    Glance::Pending
                }
                Reading::Rest if byte == ESC => {
                    *self = Reading::AfterEsc;
                    Glance::Pending
                }
                Reading::GoToX if 1 <= byte && byte <= 20 => {
                    *self = Reading::GoToY {
                        x: Column { number: byte },
                    };
                    Glance::Pending
                }
                Reading::GoToY { x } if byte == 1 || byte == 2 => {
                    let at = Position {
                        column: x.number,
                        row: byte,
                    };
                    *self = Reading::Rest;
                    Glance::GoTo {
                        to: GlassPosition { at },
                        name: GO_TO,
                    }
                }
                _ => Glance::Unread,
            }
        }
    }

    ghost laws = { escpos_laws };
}

/// The bytes that bring a reader to rest, however much of an item it has read; there they leave it at rest. On the way none of
/// them initializes, selects or records.
pub fn six_cancels() -> [u8; 6]
    ensures bytes { result ≡ six }
    ensures cancels { (r : Reading) → run escpos.step r six ≡ escpos.rest }
    ensures stays { (escpos.step escpos.rest 0x18).next ≡ escpos.rest }
    ensures amounts { (r : Reading) → CancelOutcome (escpos.step r 0x18).outcome }
{
    [CANCEL; 6]
}
