// What a byte and a tick do.
ghost use Rattle.std.specs.Prelude.{◌≡◌};
ghost use Rattle.state.specs.Core.{core_of};
ghost use Rattle.state.specs.Effects.{one};
ghost use Rattle.terms.specs.Presets.{preset};
ghost use Rattle.state.specs.Model.{obeyed, told, heeded, ended, ending, kept, overflows, reported, strokes_in, fault_of, forgotten, Replies, Moves, Begins};

use crate::controller::carry::NO_STROKES;
use crate::controller::{Controller, HostReply, Machine, Reply, Strokes};
use crate::listener::{Item, Listener, Voice};
use commands::outcome::ReadFault;
use commands::sets::CommandSets;
use commands::words::{Command, Name, Spot, US};
use glass::stroke::{Ink, Stroke};
use terms::fault::{DisplayFault, Fault};
use terms::settings::Settings;

// The command that opens and closes recordings, of which a recording that is too long is told.
const RECORDING: Name = Name {
    first: US,
    second: b':',
};

// Whether an item is carried out while the display is deselected.
fn is_heeded(item: Item) -> bool
    ensures { result ≡ heeded item.voice item.command }
{
    matches!(
        (item.voice, item.command),
        (Voice::Host, Command::Select { .. })
    )
}

// A fault as it is reported, with who spoke.
fn told(voice: Voice, fault: DisplayFault) -> Fault
    ensures { result ≡ told voice fault }
{
    match voice {
        Voice::Host => Fault::Said { fault },
        Voice::Macro => Fault::Played { fault },
    }
}

// What is drawn and reported of an answer.
#[inline(always)]
pub(crate) fn reply(voice: Voice, selected: bool, answer: Result<Strokes, DisplayFault>) -> Reply
    ensures strokes { result.strokes ≡ strokes_in answer }
    ensures fault { fault_of result.fault ≡ reported voice selected answer }
{
    match answer {
        Ok(strokes) => Reply {
            strokes,
            fault: None,
        },
        Err(fault) => Reply {
            strokes: NO_STROKES,
            fault: selected.then(|| told(voice, fault)),
        },
    }
}

impl Machine {
    // Carries out what was heard. (Two clauses, since an act is no `Effect`: it tells what was carried out as well.)
    #[inline(always)]
    pub(crate) fn obey(
        &mut self,
        heard: Result<Option<Item>, ReadFault>,
    ) -> Result<Strokes, DisplayFault>
        ensures answer { result ≡ (obeyed heard (core_of self.old)).answer }
        ensures core { core_of self.new ≡ (obeyed heard (core_of self.old)).core }
    {
        match heard? {
            Some(item) if self.selected || is_heeded(item) => self.carry(item),
            _ => Ok(NO_STROKES),
        }
    }

    // A host byte ends a playback.
    #[inline(always)]
    fn end_playback(&mut self) -> Option<Stroke>
        ensures stroke { one result ≡ ending (core_of self.old) }
        ensures core { core_of self.new ≡ ended (core_of self.old) }
    {
        if !self.tape.is_playing() {
            return None;
        }
        let area = self.windows.here();
        self.tape.stop();
        self.windows.jump(Spot::Home);
        Some(Stroke {
            area,
            ink: Ink::Blank,
        })
    }

    // A recording stores a byte.
    #[inline(always)]
    fn keep(&mut self, byte: u8) -> Option<Fault>
        ensures fault { fault_of result ≡ overflows (core_of self.old) }
        ensures core { core_of self.new ≡ kept byte (core_of self.old) }
    {
        if !self.selected {
            return None;
        }
        self.tape.store(byte).map(|refusal| Fault::Said {
            fault: DisplayFault::Refused {
                refusal,
                name: RECORDING,
            },
        })
    }
}

impl<S: CommandSets> Controller<S> {
    /// The controller of a new display.
    pub fn new(settings: Settings) -> Controller<S>
        ensures { Begins S.reads (preset settings) result }
    {
        Controller {
            listener: Listener::new(),
            machine: Machine::new(settings),
        }
    }

    /// All but what is being read.
    #[inline(always)]
    pub fn machine(&self) -> &Machine
        ensures { result.now ≡ self.now.machine }
    {
        &self.machine
    }

    // The end of a playback forgets a half-read command.
    #[inline(always)]
    fn forget(&mut self)
        ensures reading { self.new.listener.reading ≡ forgotten S.reads self.old.listener.reading (core_of self.old.machine) }
        ensures machine { self.new.machine ≡ self.old.machine }
    {
        if self.machine.tape.is_playing() {
            self.listener.forget();
        }
    }

    #[inline(always)]
    pub fn byte(&mut self, byte: u8) -> HostReply
        ensures { Replies S.reads byte self.old result self.new }
    {
        self.forget();
        let ending = self.machine.end_playback();
        let overflow = self.machine.keep(byte);
        let selected = self.machine.selected;
        let heard = self.listener.heard(byte);
        let answer = self.machine.obey(heard);
        HostReply {
            ending,
            overflow,
            reply: reply(Voice::Host, selected, answer),
        }
    }

    // Ten milliseconds pass: the lamp moves, and then the macro.
    #[inline(always)]
    pub fn tick(&mut self) -> Reply
        ensures { Moves S.reads self.old result self.new }
    {
        let lamp = self.machine.lamp.ticked();
        self.machine.lamp = lamp;
        let Some(byte) = self.machine.tape.tick() else {
            return Reply {
                strokes: NO_STROKES,
                fault: None,
            };
        };
        let selected = self.machine.selected;
        let played = self.listener.played(byte);
        let answer = self.machine.obey(played);
        reply(Voice::Macro, selected, answer)
    }
}
