// The answers to single lines, as they are printed.
use commands::words::Name;
use display::words::Answer;
use glass::area::{Area, PLACES, Position};
use std::fmt;
use terms::fault::{Fault, Report};

// The answer to a question.
#[derive(Clone, Copy)]
pub struct Told(pub Answer);

impl fmt::Display for Told {
    fn fmt<W: fmt::Write>(&self, f: &mut fmt::Formatter<W>) -> fmt::Result {
        match self.0 {
            Answer::Cell { cell } => write!(f, "cell {cell}"),
            Answer::Cursor {
                cursor: Position { column, row },
            } => write!(f, "cursor {column} {row}"),
            Answer::Window {
                area: Some(Area { x1, y1, x2, y2 }),
            } => write!(f, "window {x1} {y1} {x2} {y2}"),
            Answer::User { bits: Some(bits) } => write!(f, "user {bits}"),
            Answer::Macro { byte: Some(byte) } => write!(f, "macro {byte}"),
            Answer::Lamp { lit: true } => f.write_str("lamp lit"),
            Answer::Lamp { lit: false } => f.write_str("lamp dark"),
            Answer::Modes { modes } => {
                f.write_str("modes")?;
                for number in modes.numbers() {
                    write!(f, " {number}")?;
                }
                Ok(())
            }
            _ => f.write_str("none"),
        }
    }
}

// A fault: its cause, the command's two bytes, the operand, and who spoke.
#[derive(Clone, Copy)]
pub struct ToldFault(pub Fault);

impl fmt::Display for ToldFault {
    fn fmt<W: fmt::Write>(&self, f: &mut fmt::Formatter<W>) -> fmt::Result {
        let Report {
            cause,
            name: Name { first, second },
            operand,
            played,
        } = self.0.report();
        let speaker = if played { "played" } else { "host" };
        write!(f, "fault {cause} {first} {second} {operand} {speaker}")
    }
}

// The forty cells by place.
#[derive(Clone, Copy)]
pub struct Glass(pub [u64; PLACES]);

impl fmt::Display for Glass {
    fn fmt<W: fmt::Write>(&self, f: &mut fmt::Formatter<W>) -> fmt::Result {
        f.write_str("glass")?;
        for cell in self.0 {
            write!(f, " {cell}")?;
        }
        Ok(())
    }
}
