// What a command set is: how bytes are read. What is then done is no part of it.
ghost use Rattle.std.specs.Prelude.{◌≡◌};
ghost use Rattle.commands.specs.Sets.{Glances, Laws, Make, Reads, SetsLaws};

use crate::outcome::{Glance, Outcome};
use crate::words::Dialect;

/// One make of command set: a value is a reading, how far an item is read.
pub trait CommandSet: Copy {
    // What the set means.
    ghost make: { Make Self };

    /// The reading at which an item begins.
    fn rest() -> Self
        ensures { result ≡ make.rest };

    /// Reads a byte, and answers what it amounts to.
    fn take(&mut self, byte: u8) -> Outcome
        ensures next { self.new ≡ (make.step self.old byte).next }
        ensures outcome { result ≡ (make.step self.old byte).outcome };

    /// Reads a byte at a glance, if it is one of those of which the set tells at once what they amount to; any other is left
    /// unread. A set may leave every byte unread.
    fn glance(&mut self, byte: u8) -> Glance
        ensures value { result ≡ make.glance self.old byte }
        ensures reading { Glances make.step self.old byte result self.new };

    // What each make shows of its meaning.
    ghost laws: { Laws make };
}

/// The command sets that a display holds, one of them in force: a value is a reading in the set that is in force.
pub trait CommandSets: Copy {
    ghost reads: { Reads Self };

    /// The reading at which an item begins in a set.
    fn at_rest(dialect: Dialect) -> Self
        ensures { result ≡ reads.rest dialect };

    /// Forgets a half-read item; the set in force stays.
    fn forget(&mut self)
        ensures { self.new ≡ reads.rest (reads.dialect self.old) };

    /// Reads a byte in the set in force.
    fn take(&mut self, byte: u8) -> Outcome
        ensures next { self.new ≡ (reads.step self.old byte).next }
        ensures outcome { result ≡ (reads.step self.old byte).outcome };

    /// Reads a byte at a glance, or leaves it unread.
    fn glance(&mut self, byte: u8) -> Glance
        ensures value { result ≡ reads.glance self.old byte }
        ensures reading { Glances reads.step self.old byte result self.new };

    ghost laws: { SetsLaws reads };
}
