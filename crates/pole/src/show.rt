// The picture of a display: a frame, in it for each row a line of characters and under it a line of their marks, and
// then the state in a line.
use commands::words::Mode;
use display::Display;
use display::words::{Answer, Question};
use glass::area::COLUMNS;
use panel::Panel;
use panel::draw::cells;
use script::cells::{glyph, sign};
use state::controller::questions::Modes;
use std::fmt;

const FRAME: &str = "+--------------------+";

#[derive(Drop)]
pub struct Picture<'a, P>(pub &'a Display<P>);

impl<P: Panel> fmt::Display for Picture<'_, P> {
    fn fmt<W: fmt::Write>(&self, f: &mut fmt::Formatter<W>) -> fmt::Result {
        writeln!(f, "{FRAME}")?;
        for row in cells(self.0.panel()).chunks(COLUMNS) {
            line(f, row, glyph)?;
            line(f, row, sign)?;
        }
        writeln!(f, "{FRAME}")?;
        if let Ok(Answer::Cursor { cursor }) = self.0.ask(Question::Cursor) {
            write!(f, "cursor {} {}", cursor.column, cursor.row)?;
        }
        if let Ok(Answer::Modes { modes }) = self.0.ask(Question::Modes) {
            state(f, modes)?;
        }
        if let Ok(Answer::Lamp { lit }) = self.0.ask(Question::Lamp) {
            let lamp = if lit { "lit" } else { "dark" };
            write!(f, ", lamp {lamp}")?;
        }
        Ok(())
    }
}

// A line of the picture: the characters of a row, or their marks.
fn line<W: fmt::Write, F: Fn(u64) -> char>(
    f: &mut fmt::Formatter<W>,
    row: &[u64],
    shown: F,
) -> fmt::Result
    requires { F.IsAlwaysCallable shown }
{
    f.write_char('|')?;
    for cell in row {
        f.write_char(shown(*cell))?;
    }
    f.write_str("|\n")
}

fn state<W: fmt::Write>(f: &mut fmt::Formatter<W>, modes: Modes) -> fmt::Result {
    let shown = if modes.cursor { "shown" } else { "hidden" };
    let mode = match modes.mode {
        Mode::Overwrite => "overwrite",
        Mode::Vertical => "vertical",
        Mode::Horizontal => "horizontal",
    };
    let window = modes.window.map_or(0, u8::from);
    let Modes {
        brightness,
        table,
        set,
        blink,
        ..
    } = modes;
    let selected = if modes.selected {
        "selected"
    } else {
        "deselected"
    };
    write!(
        f,
        " {shown}, mode {mode}, window {window}, brightness {brightness}, table {table}, set {set}"
    )?;
    write!(f, ", {selected}")?;
    if modes.user {
        f.write_str(", user characters")?;
    }
    if modes.recording {
        f.write_str(", recording")?;
    }
    if modes.playing {
        f.write_str(", playing")?;
    }
    write!(f, ", blink {blink}")
}
