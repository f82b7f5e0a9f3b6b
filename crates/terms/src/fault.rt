// Faults of a display: the reader's carried whole, and its own.
ghost use Rattle.std.specs.Prelude.{◌≡◌, true, false};
ghost use Rattle.terms.specs.declared.fault.DisplayFault.TheVariants.{Read};
ghost use Rattle.terms.specs.Faults.{report, report_by};

use commands::outcome::ReadFault;
use commands::words::{Name, Refusal, US};

/// A command that was dropped as malformed, or refused.
#[derive(Clone, Copy, Debug, PartialEq, Eq)]
pub enum DisplayFault {
    Read { fault: ReadFault },
    Refused { refusal: Refusal, name: Name },
}

impl From<ReadFault> for DisplayFault {
    ghost from_gives = { λ f r. r ≡ Read f };

    fn from(fault: ReadFault) -> DisplayFault {
        Self::Read { fault }
    }
}

/// A fault as it is reported: of what the host said, or of what the macro played.
#[derive(Clone, Copy, Debug, PartialEq, Eq)]
pub enum Fault {
    Said { fault: DisplayFault },
    Played { fault: DisplayFault },
}

/// What a fault place holds before it is used.
pub const UNUSED: Fault = Fault::Said {
    fault: DisplayFault::Refused {
        refusal: Refusal::NoMacro,
        name: Name {
            first: US,
            second: b'^',
        },
    },
};

/// All that a fault tells.
#[derive(Clone, Copy, Debug, PartialEq, Eq)]
pub struct Report {
    /// 1 to 9.
    pub cause: u8,
    /// The first two bytes of the command.
    pub name: Name,
    /// The number of the operand that is out of its range, from 1; 0 but for cause 2.
    pub operand: u8,
    /// Whether the macro spoke, and not the host.
    pub played: bool,
}

impl DisplayFault {
    fn report_by(self, played: bool) -> Report
        ensures { result ≡ report_by played self }
    {
        match self {
            DisplayFault::Read {
                fault: ReadFault::Unknown { name },
            } => Report {
                cause: 1,
                name,
                operand: 0,
                played,
            },
            DisplayFault::Read {
                fault: ReadFault::OutOfRange { name, operand },
            } => Report {
                cause: 2,
                name,
                operand,
                played,
            },
            DisplayFault::Refused { refusal, name } => Report {
                cause: u8::from(refusal),
                name,
                operand: 0,
                played,
            },
        }
    }
}

impl Fault {
    pub fn report(self) -> Report
        ensures { result ≡ report self }
    {
        match self {
            Fault::Said { fault } => fault.report_by(false),
            Fault::Played { fault } => fault.report_by(true),
        }
    }
}
