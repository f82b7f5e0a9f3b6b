// The forms of a transition.
ghost use Rattle.std.specs.Prelude.{◌≡◌};
ghost use Rattle.escpos.specs.Steps.{done, wait, fails, off};

use crate::reading::Reading;
use commands::outcome::{Outcome, ReadFault, Transition};
use commands::words::{Command, Name, PenChange};

// The item ends, and is a character or a command.
#[inline(always)]
pub(crate) fn complete(command: Command) -> Transition<Reading>
    ensures { result ≡ done command }
{
    Transition {
        next: Reading::Rest,
        outcome: Outcome::Complete { command },
    }
}

// The item ends, and changes how characters are written.
pub(crate) fn change_pen(change: PenChange) -> Transition<Reading>
    ensures { result ≡ done (Command.Pen change) }
{
    complete(Command::Pen { change })
}

// The item goes on.
#[inline(always)]
pub(crate) fn wait(next: Reading) -> Transition<Reading>
    ensures { result ≡ wait next }
{
    Transition {
        next,
        outcome: Outcome::Pending,
    }
}

// The item ends, malformed.
#[inline(always)]
pub(crate) fn fail(fault: ReadFault) -> Transition<Reading>
    ensures { result ≡ fails fault }
{
    Transition {
        next: Reading::Rest,
        outcome: Outcome::Faulty { fault },
    }
}

// An operand of a command, counted from 1, is out of its range.
#[inline(always)]
pub(crate) fn off(name: Name, operand: u8) -> Transition<Reading>
    ensures { result ≡ off name operand }
{
    fail(ReadFault::OutOfRange { name, operand })
}
