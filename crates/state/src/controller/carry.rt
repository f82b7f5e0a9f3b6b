// A command is carried out.
ghost use Rattle.std.specs.Prelude.{◌≡◌};
ghost use Rattle.commands.specs.declared.words.Command.TheVariants.{ClearRow, Initialize};
ghost use Rattle.terms.specs.Presets.{preset};
ghost use Rattle.state.specs.declared.listener.Voice.TheVariants.{Host};
ghost use Rattle.state.specs.Core.{core_of, fresh, window};
ghost use Rattle.state.specs.Effects.{Does, effect, writes, types, plays, changes, chooses, steps, jumps, quietly, inks, answered, stroke, drawing};

use crate::cell::{Pen, cell_of};
use crate::controller::{Machine, Strokes};
use crate::lamp::Lamp;
use crate::listener::{Item, Voice};
use crate::tape::Tape;
use crate::users::Users;
use crate::windows::Windows;
use commands::words::{Command, Mark, Mode, Name, PenChange, Refusal, Spot, Way};
use glass::area::{Area, Position, WHOLE};
use glass::stroke::{Ink, Stroke};
use terms::fault::DisplayFault;
use terms::settings::Settings;

pub(crate) const NO_STROKES: Strokes = Strokes {
    first: None,
    second: None,
};

fn inked(area: Area, ink: Option<Ink>) -> Option<Stroke>
    ensures { result ≡ inks area ink }
{
    ink.map(|ink| Stroke { area, ink })
}

// Nothing is drawn, or a command of this name is refused.
fn answered(name: Name, answer: Result<(), Refusal>) -> Result<Strokes, DisplayFault>
    ensures { result ≡ answered name answer }
{
    match answer {
        Ok(()) => Ok(NO_STROKES),
        Err(refusal) => Err(DisplayFault::Refused { refusal, name }),
    }
}

impl Pen {
    fn change(self, change: PenChange) -> Pen
        ensures { result ≡ changes change self }
    {
        match change {
            PenChange::Mode { mode } => Pen { mode, ..self },
            PenChange::Set { number } => Pen {
                set: number,
                ..self
            },
            PenChange::Table { number } => Pen {
                table: number,
                ..self
            },
            PenChange::User { on } => Pen { user: on, ..self },
        }
    }
}

impl Machine {
    /// That of a new display.
    pub fn new(settings: Settings) -> Machine
        ensures { core_of result ≡ fresh (preset settings) }
    {
        Machine {
            settings,
            windows: Windows::new(),
            pen: Pen {
                mode: Mode::Overwrite,
                set: settings.set(),
                table: settings.table(),
                user: false,
            },
            shown: false,
            brightness: settings.brightness(),
            lamp: Lamp::Lit,
            selected: true,
            users: Users::new(),
            tape: Tape::new(),
        }
    }

    fn step(&mut self, way: Way) -> Result<Strokes, DisplayFault>
        ensures { Does (steps way (core_of self.old)) result (core_of self.new) }
    {
        let area = self.windows.here();
        let ink = self.windows.step(way, self.pen.mode);
        Ok(Strokes {
            first: inked(area, ink),
            second: None,
        })
    }

    fn write(&mut self, cell: u64) -> Result<Strokes, DisplayFault>
        ensures { Does (writes self.old.pen.mode (core_of self.old) cell) result (core_of self.new) }
    {
        let area = self.windows.here();
        let at = self.windows.cursor();
        match self.pen.mode {
            Mode::Horizontal => Ok(Strokes {
                first: Some(Stroke {
                    area,
                    ink: Ink::ShiftLeft { row: at.row },
                }),
                second: Some(Stroke {
                    area,
                    ink: Ink::Write {
                        at: Position {
                            column: area.x2,
                            row: at.row,
                        },
                        cell,
                    },
                }),
            }),
            mode => {
                let ink = self.windows.step(Way::Right, mode);
                let first = Some(Stroke {
                    area,
                    ink: Ink::Write { at, cell },
                });
                Ok(Strokes {
                    first,
                    second: inked(area, ink),
                })
            }
        }
    }

    // Writes a character, with a mark or without.
    fn type_in(&mut self, code: u8, mark: Option<Mark>) -> Result<Strokes, DisplayFault>
        ensures { Does (types code mark (core_of self.old)) result (core_of self.new) }
    {
        let user = self.users.columns(code);
        self.write(cell_of(code, self.pen, user, mark))
    }

    // The host starts the macro.
    fn play(&mut self, voice: Voice, wait: u8, gap: u8, name: Name) -> Result<Strokes, DisplayFault>
        ensures { Does (plays voice name wait gap (core_of self.old)) result (core_of self.new) }
    {
        match voice {
            Voice::Host => answered(name, self.tape.play(wait, gap)),
            Voice::Macro => answered(name, Err(Refusal::PlayRefused)),
        }
    }

    fn jump(&mut self, spot: Spot) -> Result<Strokes, DisplayFault>
        ensures { Does (quietly (jumps spot (core_of self.old))) result (core_of self.new) }
    {
        self.windows.jump(spot);
        Ok(NO_STROKES)
    }

    // Blanks the window's part of the cursor's row.
    fn clear_row(&mut self) -> Result<Strokes, DisplayFault>
        ensures { Does (effect Host ClearRow (core_of self.old)) result (core_of self.new) }
    {
        let row = self.windows.cursor().row;
        self.clear(Ink::BlankRow { row }, Spot::RowStart)
    }

    // Draws in the current window, and jumps.
    fn clear(&mut self, ink: Ink, spot: Spot) -> Result<Strokes, DisplayFault>
        ensures { Does (drawing (jumps spot (core_of self.old)) (stroke (window (core_of self.old)) ink)) result (core_of self.new) }
    {
        let area = self.windows.here();
        self.windows.jump(spot);
        Ok(Strokes {
            first: Some(Stroke { area, ink }),
            second: None,
        })
    }

    fn initialize(&mut self) -> Result<Strokes, DisplayFault>
        ensures { Does (effect Host Initialize (core_of self.old)) result (core_of self.new) }
    {
        *self = Machine::new(self.settings);
        Ok(Strokes {
            first: Some(Stroke {
                area: WHOLE,
                ink: Ink::Blank,
            }),
            second: None,
        })
    }

    #[inline(always)]
    pub(crate) fn carry(&mut self, item: Item) -> Result<Strokes, DisplayFault>
        ensures { Does (effect item.voice item.command (core_of self.old)) result (core_of self.new) }
    {
        match item.command {
            Command::Character { code, mark } => return self.type_in(code, mark),
            Command::Move { way } => return self.step(way),
            Command::Jump { spot } => return self.jump(spot),
            Command::GoTo { to, name } => return answered(name, self.windows.go_to(to)),
            Command::Clear => return self.clear(Ink::Blank, Spot::Home),
            Command::ClearRow => return self.clear_row(),
            Command::Window { change, name } => return answered(name, self.windows.change(change)),
            Command::Play { wait, gap, name } => return self.play(item.voice, wait, gap, name),
            Command::Initialize => return self.initialize(),
            Command::Pen { change } => self.pen = self.pen.change(change),
            Command::Cursor { shown } => self.shown = shown,
            Command::Brightness { level } => self.brightness = level,
            Command::Blink { period } => self.lamp = Lamp::set(period),
            Command::Define { code, columns } => self.users.set(code, Some(columns)),
            Command::Forget { code } => self.users.set(code, None),
            Command::Record => self.tape.record(),
            Command::Select { on } => self.select(item.voice, on),
        }
        Ok(NO_STROKES)
    }

    // From the macro it does nothing.
    fn select(&mut self, voice: Voice, on: bool)
        ensures { core_of self.new ≡ chooses voice on (core_of self.old) }
    {
        if let Voice::Host = voice {
            self.selected = on;
        }
    }
}
