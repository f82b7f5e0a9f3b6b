// What a life came to, in numbers.
use crate::sum::Sum;
use commands::words::Name;
use display::Display;
use display::words::{Answer, Question};
use panel::Panel;
use panel::draw::cells;
use std::fmt;
use std::num::Saturating;
use terms::fault::{Fault, Report};

// How often something came.
type Count = Saturating<u64>;

#[derive(Default, Drop)]
pub struct Tally {
    pub bytes: Count,
    pub ticks: Count,
    pub pieces: Count,
    pub recalls: Count,
    // pieces that came while the macro played, and so ended it
    pub endings: Count,
    pub first_paintings: Count,
    pub second_paintings: Count,
    // those of the second display that found the flag up
    pub whole_paintings: Count,
    pub differences: Count,
    // faults by their cause; there is none of cause 0
    said: [Count; 10],
    played: [Count; 10],
    sum: Sum,
}

impl Tally {
    pub fn count(&mut self, fault: Fault) {
        let Report {
            cause,
            name: Name { first, second },
            operand,
            played,
        } = fault.report();
        let counts = if played {
            &mut self.played
        } else {
            &mut self.said
        };
        if let Some(count) = counts.get_mut(usize::from(cause)) {
            *count += 1;
        }
        self.sum
            .add(&[cause, first, second, operand, u8::from(played)]);
    }

    // What a display shows and says of itself.
    pub fn see<P: Panel>(&mut self, display: &Display<P>) {
        self.sum.add(&cells(display.panel()));
        for question in [Question::Cursor, Question::Lamp, Question::Modes] {
            match display.ask(question) {
                Ok(Answer::Cursor { cursor }) => self.sum.add(&[cursor.column, cursor.row]),
                Ok(Answer::Lamp { lit }) => self.sum.add(&[lit]),
                Ok(Answer::Modes { modes }) => self.sum.add(&modes.numbers()),
                _ => {}
            }
        }
    }
}

impl fmt::Display for Tally {
    fn fmt<W: fmt::Write>(&self, f: &mut fmt::Formatter<W>) -> fmt::Result {
        for (what, count) in [
            ("bytes", self.bytes),
            ("ticks", self.ticks),
            ("pieces", self.pieces),
            ("recalls", self.recalls),
            ("plays ended by a piece", self.endings),
            ("plain panel painted", self.first_paintings),
            ("strip panel painted", self.second_paintings),
            ("strip panel painted as a whole", self.whole_paintings),
        ] {
            writeln!(f, "{what} {}", count.0)?;
        }
        // A US ^ from the macro is always fault 7, and no macro has US : in it as a command: 8 and 9 stay at 0.
        for (speaker, counts) in [("host", &self.said), ("macro", &self.played)] {
            for (cause, count) in counts.iter().enumerate().skip(1) {
                writeln!(f, "fault {cause} from the {speaker} {}", count.0)?;
            }
        }
        writeln!(f, "checksum {}", self.sum.code)?;
        write!(f, "differences {}", self.differences.0)
    }
}
