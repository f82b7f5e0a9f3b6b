// A display: a panel, which holds the glass, and the controller, which holds all the rest; and its calls.
ghost use Rattle.std.specs.Prelude.{◌≡◌, ◌+◌, ◌<◌, length};
ghost use Rattle.list.specs.Entries.{entries, capacity};
ghost use Rattle.panel.specs.Laws.{Drew};
ghost use Rattle.glass.specs.Drawn.{drawn_all};
ghost use Rattle.terms.specs.Presets.{preset};
ghost use Rattle.state.specs.Effects.{one, strokes_of};
ghost use Rattle.state.specs.Model.{fault_of};
ghost use Rattle.display.specs.Calls.{Grown, Puts, CarriesOut, Takes, SwitchesOn, Feeds, Ticks, Paints, Asks, SwitchesOff};

use crate::words::{Answer, AskRefusal, FeedRefusal, Question};
use commands::outcome::Glance;
use commands::sets::CommandSets;
use commands::words::{Command, Mark};
use glass::area::{Position, WHOLE};
use glass::stroke::{Ink, Stroke};
use list::BoundedList;
use panel::Panel;
use panel::draw::{draw, write_cell};
use state::controller::{Controller, Strokes};
use terms::fault::Fault;
use terms::settings::Settings;

/// The longest piece that is fed at once.
pub const LONGEST: usize = 4096;

/// A customer display over a panel of any make, and over any command sets.
#[derive(Drop)]
pub struct Display<P, S> {
    panel: P,
    controller: Controller<S>,
}

#[inline(always)]
fn draw_some<P: Panel>(panel: &mut P, stroke: Option<Stroke>)
    ensures { Drew P.make panel.old (drawn_all (one stroke) (P.make.cells panel.old)) panel.new }
{
    if let Some(stroke) = stroke {
        draw(panel, stroke);
    }
}

#[inline(always)]
fn draw_all<P: Panel>(panel: &mut P, strokes: Strokes)
    ensures { Drew P.make panel.old (drawn_all (strokes_of strokes) (P.make.cells panel.old)) panel.new }
{
    draw_some(panel, strokes.first);
    draw_some(panel, strokes.second);
}

// Appends a fault, if there is one.
#[inline(always)]
fn note(faults: &mut BoundedList<'_, Fault>, fault: Option<Fault>)
    requires { length (entries faults.old) < capacity faults.old }
    ensures { Grown faults.old (fault_of fault) faults.new }
{
    if let Some(fault) = fault {
        let _ = faults.append(fault);
    }
}

impl<P: Panel, S: CommandSets> Display<P, S> {
    // A new display; all places are blanked.
    pub fn switch_on(settings: Settings, mut panel: P) -> Display<P, S>
        ensures { SwitchesOn P.make S.reads (preset settings) panel result }
    {
        draw(
            &mut panel,
            Stroke {
                area: WHOLE,
                ink: Ink::Blank,
            },
        );
        Display {
            panel,
            controller: Controller::new(settings),
        }
    }

    // One byte, with its faults. Where it is only read, most bytes go the short way.
    #[inline(always)]
    fn take(&mut self, byte: u8, faults: &mut BoundedList<'_, Fault>)
        requires { length (entries faults.old) + 1 < capacity faults.old }
        ensures { Takes P.make S.reads self.old byte faults.old self.new faults.new }
    {
        match self.controller.glance(byte) {
            Glance::Unread => self.take_long(byte, faults),
            Glance::Pending => {}
            Glance::Character { mark } => self.put(byte, mark),
            Glance::GoTo { to, name } => {
                if !self.controller.goes_to(to) {
                    self.carry_out(Command::GoTo { to, name }, faults);
                }
            }
        }
    }

    // Puts a character where the cursor stands, which then goes right.
    #[inline(always)]
    fn put(&mut self, code: u8, mark: Option<Mark>)
        ensures { Puts P.make code mark self.old self.new }
    {
        let machine = self.controller.machine();
        let at = machine.cursor();
        let cell = machine.built_in(code, mark);
        self.controller.type_on();
        write_cell(&mut self.panel, at, cell);
    }

    // Carries out what a byte amounts to that was only read.
    fn carry_out(&mut self, command: Command, faults: &mut BoundedList<'_, Fault>)
        requires { length (entries faults.old) < capacity faults.old }
        ensures { CarriesOut P.make S.reads command self.old faults.old self.new faults.new }
    {
        let reply = self.controller.answer(command);
        draw_all(&mut self.panel, reply.strokes);
        note(faults, reply.fault);
    }

    // The way of any byte.
    #[inline(always)]
    fn take_long(&mut self, byte: u8, faults: &mut BoundedList<'_, Fault>)
        requires { length (entries faults.old) + 1 < capacity faults.old }
        ensures { Takes P.make S.reads self.old byte faults.old self.new faults.new }
    {
        let answer = self.controller.byte(byte);
        draw_some(&mut self.panel, answer.ending);
        draw_all(&mut self.panel, answer.reply.strokes);
        note(faults, answer.overflow);
        note(faults, answer.reply.fault);
    }

    // Gives the display the bytes of a piece, and appends its faults to the list: how many is answered.
    pub fn feed(
        &mut self,
        piece: &[u8],
        faults: &mut BoundedList<'_, Fault>,
    ) -> Result<usize, FeedRefusal>
        ensures { Feeds P.make S.reads self.old piece.now faults.old result self.new faults.new }
    {
        if piece.len() > LONGEST {
            return Err(FeedRefusal::LongPiece);
        }
        if faults.free() < 2 * piece.len() {
            return Err(FeedRefusal::FewPlaces);
        }
        let before = faults.count();
        for byte in piece {
            self.take(*byte, faults);
        }
        Ok(faults.count() - before)
    }

    // Ten milliseconds pass; the fault that they give, if any, is answered.
    pub fn tick(&mut self) -> Option<Fault>
        ensures { Ticks P.make S.reads self.old result self.new }
    {
        let reply = self.controller.tick();
        draw_all(&mut self.panel, reply.strokes);
        reply.fault
    }

    // Tells the panel that what it holds was painted.
    pub fn painted(&mut self)
        ensures { Paints P.make self.old self.new }
    {
        self.panel.painted();
    }

    pub fn ask(&self, question: Question) -> Result<Answer, AskRefusal>
        ensures { Asks P.make self.now question result }
    {
        let controller = self.controller.machine();
        match question {
            Question::Cell { column, row } => self.cell(column, row),
            Question::Cursor => Ok(Answer::Cursor {
                cursor: controller.cursor(),
            }),
            Question::Window { number } => Ok(Answer::Window {
                area: controller.window(number),
            }),
            Question::User { code } => Ok(Answer::User {
                bits: controller.user(code),
            }),
            Question::Macro { index } => Ok(Answer::Macro {
                byte: controller.macro_byte(index),
            }),
            Question::Lamp => Ok(Answer::Lamp {
                lit: controller.is_lit(),
            }),
            Question::Modes => Ok(Answer::Modes {
                modes: controller.modes(),
            }),
        }
    }

    // By what a question has; a position is made of it once.
    fn cell(&self, column: u8, row: u8) -> Result<Answer, AskRefusal>
        ensures { Asks P.make self.now (Question.Cell column row) result }
    {
        let place = Position { column, row }
            .place()
            .ok_or(AskRefusal::OffGlass)?;
        self.panel
            .look(place)
            .map(|cell| Answer::Cell { cell })
            .map_err(|_| AskRefusal::OffGlass)
    }

    // The held panel, to be looked at between calls.
    pub fn panel(&self) -> &P
        ensures { result.now ≡ self.now.panel }
    {
        &self.panel
    }

    // Ends the display and gives its panel back.
    pub fn switch_off(self) -> P
        ensures { SwitchesOff P.make self result }
    {
        let Display { panel, .. } = self;
        panel
    }
}
