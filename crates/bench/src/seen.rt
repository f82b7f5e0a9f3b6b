// What is seen of a display while a day is played on it.
use crate::sum::Sum;
use commands::words::Name;
use display::Display;
use display::words::{Answer, Question};
use panel::Panel;
use panel::draw::cells;
use std::fmt;
use std::num::Saturating;
use terms::fault::{Fault, Report};

#[derive(Clone, Copy, Default)]
pub struct Seen {
    bytes: Saturating<u64>,
    ticks: Saturating<u64>,
    faults: Saturating<u64>,
    glass: Sum,
    answers: Sum,
}

impl Seen {
    pub fn bytes(&mut self, count: usize) {
        self.bytes += count as u64;
    }

    pub fn tick(&mut self) {
        self.ticks += 1;
    }

    pub fn fault(&mut self, fault: Fault) {
        self.faults += 1;
        let Report {
            cause,
            name: Name { first, second },
            operand,
            played,
        } = fault.report();
        let speaker = if played { b'p' } else { b'h' };
        self.answers
            .bytes(&[cause, first, second, operand, speaker]);
    }

    // The forty cells, and the answers to questions.
    pub fn look<P: Panel>(&mut self, display: &Display<P>) {
        for cell in cells(display.panel()) {
            self.glass.bytes(&cell.to_le_bytes());
        }
        for question in [Question::Cursor, Question::Modes, Question::Lamp] {
            match display.ask(question) {
                Ok(Answer::Cursor { cursor }) => self.answers.bytes(&[cursor.column, cursor.row]),
                Ok(Answer::Modes { modes }) => self.answers.bytes(&modes.numbers()),
                Ok(Answer::Lamp { lit }) => self.answers.bytes(&[u8::from(lit)]),
                _ => {}
            }
        }
    }
}

impl fmt::Display for Seen {
    fn fmt<W: fmt::Write>(&self, f: &mut fmt::Formatter<W>) -> fmt::Result {
        let bytes = self.bytes.0;
        let ticks = self.ticks.0;
        let faults = self.faults.0;
        write!(f, "{bytes} bytes, {ticks} ticks, {faults} faults")?;
        write!(f, ", glass {}, answers {}", self.glass, self.answers)
    }
}
