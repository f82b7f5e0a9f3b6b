// The short way of a host byte. Most bytes of a till's day write a character or only go on with a command: for them no
// command and no strokes are handed from function to function, which would go through memory. It goes by what a byte amounts
// to, and asks no command set how it reads.
ghost use Rattle.std.specs.Prelude.{◌≡◌, ◌≤◌, ◌||◌, nat_lt, true};
ghost use Rattle.commands.specs.Sets.{Glances};
ghost use Rattle.commands.specs.declared.words.Name.{Name};
ghost use Rattle.commands.specs.declared.outcome.Outcome.TheVariants.{Complete};
ghost use Rattle.state.specs.Core.{core_of};
ghost use Rattle.state.specs.Cells.{built_in};
ghost use Rattle.state.specs.Shorts.{GoesTo, ReadCalmly, glance_at, undisturbed, plain, typed_on, Calm, PutsOnly};
ghost use Rattle.state.specs.Heard.{heard_as};
ghost use Rattle.state.specs.Layouts.{reaches};
ghost use Rattle.state.specs.Model.{obeyed, reported, strokes_in, fault_of};
ghost use Rattle.state.specs.declared.listener.Voice.TheVariants.{Host};

use crate::cell;
use crate::controller::events::reply;
use crate::controller::{Controller, Machine, Reply};
use crate::listener::{Item, Voice};
use commands::outcome::Glance;
use commands::sets::CommandSets;
use commands::words::{Command, Mark, Mode, Way};
use glass::frame::GlassPosition;

impl Machine {
    // Whether a host byte has nothing to do before it is read.
    #[inline(always)]
    fn is_undisturbed(&self) -> bool
        ensures { result ≡ undisturbed (core_of self.now) }
    {
        self.selected && !self.tape.is_playing() && !self.tape.is_recording()
    }

    // Whether a character is only put where the cursor stands, which then moves and draws nothing.
    #[inline(always)]
    pub fn is_plain(&self) -> bool
        ensures value { result ≡ plain (core_of self.now) }
        ensures puts { result ≡ true → PutsOnly (core_of self.now) }
    {
        if self.pen.user {
            return false;
        }
        match self.pen.mode {
            Mode::Overwrite => true,
            Mode::Vertical => self.windows.cursor().column < self.windows.here().x2,
            Mode::Horizontal => false,
        }
    }

    // The cell of a character.
    #[inline(always)]
    pub fn built_in(&self, code: u8, mark: Option<Mark>) -> u64
        ensures { result ≡ built_in code self.now.pen mark }
    {
        cell::built_in(code, self.pen, mark)
    }
}

impl<S: CommandSets> Controller<S> {
    // Whether a host byte has nothing to do before it is read.
    #[inline(always)]
    pub fn is_undisturbed(&self) -> bool
        ensures value { result ≡ undisturbed (core_of self.now.machine) }
        ensures calm { result ≡ true → Calm S.reads (core_of self.now.machine) }
    {
        self.machine.is_undisturbed()
    }

    // Whether a byte, if it is a character, is only put where the cursor stands.
    #[inline(always)]
    fn may_put(&self, byte: u8) -> bool
        ensures value { result ≡ (nat_lt byte 32 || plain (core_of self.now.machine)) }
        ensures puts { result ≡ true → 32 ≤ byte → PutsOnly (core_of self.now.machine) }
    {
        byte < 0x20 || self.machine.is_plain()
    }

    // Reads a host byte at a glance, where it has nothing to do before that, and does nothing else.
    #[inline(always)]
    pub fn glance(&mut self, byte: u8) -> Glance
        ensures value { result ≡ glance_at S.reads self.old.listener.reading (core_of self.old.machine) byte }
        ensures reading { Glances S.reads.step self.old.listener.reading byte result self.new.listener.reading }
        ensures machine { self.new.machine ≡ self.old.machine }
        ensures calm { ReadCalmly S.reads result (core_of self.old.machine) }
    {
        if !self.is_undisturbed() || !self.may_put(byte) {
            return Glance::Unread;
        }
        self.listener.glance(byte)
    }

    // A character was written: the cursor goes right.
    #[inline(always)]
    pub fn type_on(&mut self)
        ensures reading { self.new.listener.reading ≡ self.old.listener.reading }
        ensures core { core_of self.new.machine ≡ typed_on (core_of self.old.machine) }
    {
        let _ = self.machine.windows.step(Way::Right, self.machine.pen.mode);
    }

    /// Carries out a command of a host byte that was read.
    #[inline(always)]
    pub fn answer(&mut self, command: Command) -> Reply
        ensures reading { self.new.listener.reading ≡ self.old.listener.reading }
        ensures core { core_of self.new.machine ≡ (obeyed (heard_as Host (Complete command)) (core_of self.old.machine)).core }
        ensures strokes { result.strokes ≡ strokes_in (obeyed (heard_as Host (Complete command)) (core_of self.old.machine)).answer }
        ensures fault { fault_of result.fault ≡ reported Host self.old.machine.selected (obeyed (heard_as Host (Complete command)) (core_of self.old.machine)).answer }
    {
        let selected = self.machine.selected;
        let answer = self.machine.obey(Ok(Some(Item {
            voice: Voice::Host,
            command,
        })));
        reply(Voice::Host, selected, answer)
    }

    /// The cursor goes to a place of the window; outside it nothing happens, and the command is still to be carried out.
    #[inline(always)]
    pub fn goes_to(&mut self, to: GlassPosition) -> bool
        ensures reading { self.new.listener.reading ≡ self.old.listener.reading }
        ensures value { result ≡ reaches to.at.column to.at.row (core_of self.old.machine).layout }
        ensures goes { (name : Name) → GoesTo to name (core_of self.old.machine) result (core_of self.new.machine) }
    {
        self.machine.windows.go_to(to).is_ok()
    }
}
