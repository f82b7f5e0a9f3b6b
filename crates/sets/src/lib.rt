// The command sets that a display knows, one of them in force.
#![tactic(auto)]

ghost use Rattle.sets.specs.Joined.{reads, reads_laws};

use commands::outcome::{Glance, Outcome};
use commands::sets::{CommandSet, CommandSets};
use commands::words::Dialect;

/// How far an item is read, in the set in force.
#[derive(Clone, Copy, Debug, PartialEq, Eq)]
pub enum Commands {
    EscPos { reading: escpos::reading::Reading },
}

impl CommandSets for Commands {
    ghost reads = { reads };

    #[inline(always)]
    fn at_rest(dialect: Dialect) -> Commands {
        match dialect {
            Dialect::EscPos => Commands::EscPos {
                reading: CommandSet::rest(),
            },
        }
    }

    #[inline(always)]
    fn forget(&mut self) {
        match self {
            Commands::EscPos { reading } => *reading = CommandSet::rest(),
        }
    }

    #[inline(always)]
    fn take(&mut self, byte: u8) -> Outcome {
        match self {
            Commands::EscPos { reading } => reading.take(byte),
        }
    }

    #[inline(always)]
    fn glance(&mut self, byte: u8) -> Glance {
        match self {
            Commands::EscPos { reading } => reading.glance(byte),
        }
    }

    ghost laws = { reads_laws };
}
