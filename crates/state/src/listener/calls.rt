// Bytes are heard: the host's, and the macro's under a guard.
ghost use Rattle.std.specs.Prelude.{◌≡◌};
ghost use Rattle.commands.specs.declared.words.Dialect.TheVariants.{EscPos};
ghost use Rattle.commands.specs.Sets.{Glances};
ghost use Rattle.state.specs.declared.listener.Voice.TheVariants.{Host, Macro};
ghost use Rattle.state.specs.Heard.{Hears, heard_as};

use crate::listener::{Item, Listener, Speaker, Voice};
use commands::outcome::{Glance, Outcome, ReadFault};
use commands::sets::CommandSets;
use commands::words::{Command, Dialect};

// The macro speaks while this stands; the host speaks again once it is let go.
struct Speaking<'a> {
    speaker: &'a mut Speaker,
}

impl Drop for Speaking<'_> {
    fn drop(self)
        ensures { self.exit.0.now.voice ≡ Host }
    {
        self.speaker.voice = Voice::Host;
        let Speaking { speaker: _ } = self;
    }
}

impl<'a> Speaking<'a> {
    fn start(speaker: &'a mut Speaker) -> Speaking<'a>
        ensures lent { result.speaker.ghost_name ≡ speaker.entry.ghost_name }
        ensures voice { result.speaker.now.voice ≡ Macro }
    {
        speaker.voice = Voice::Macro;
        Speaking { speaker }
    }
}

// What an outcome is heard as; the item bears who speaks.
#[inline(always)]
fn heard_as(voice: Voice, outcome: Outcome) -> Result<Option<Item>, ReadFault>
    ensures { result ≡ heard_as voice outcome }
{
    match outcome {
        Outcome::Pending | Outcome::Ignored => Ok(None),
        Outcome::Complete { command } => Ok(Some(Item { voice, command })),
        Outcome::Partial { code, columns } => Ok(Some(Item {
            voice,
            command: Command::Define { code, columns },
        })),
        Outcome::Faulty { fault } => Err(fault),
    }
}

impl<S: CommandSets> Listener<S> {
    pub(crate) fn new() -> Listener<S>
        ensures { result.reading ≡ S.reads.rest EscPos }
    {
        Listener {
            reading: S::at_rest(Dialect::EscPos),
            speaker: Speaker { voice: Voice::Host },
        }
    }

    // A half-read command is forgotten.
    #[inline(always)]
    pub(crate) fn forget(&mut self)
        ensures { self.new.reading ≡ S.reads.rest (S.reads.dialect self.old.reading) }
    {
        self.reading.forget();
    }

    // A byte of the host.
    #[inline(always)]
    pub(crate) fn heard(&mut self, byte: u8) -> Result<Option<Item>, ReadFault>
        ensures { Hears S.reads Host self.old.reading byte result self.new.reading }
    {
        heard_as(self.speaker.voice, self.reading.take(byte))
    }

    // A byte of the host, at a glance.
    #[inline(always)]
    pub(crate) fn glance(&mut self, byte: u8) -> Glance
        ensures value { result ≡ S.reads.glance self.old.reading byte }
        ensures reading { Glances S.reads.step self.old.reading byte result self.new.reading }
    {
        self.reading.glance(byte)
    }

    // A byte of the macro. On every way out the host speaks again.
    pub(crate) fn played(&mut self, byte: u8) -> Result<Option<Item>, ReadFault>
        ensures item { Hears S.reads Macro self.old.reading byte result self.new.reading }
        ensures host { self.new.speaker.voice ≡ Host }
    {
        let guard = Speaking::start(&mut self.speaker);
        heard_as(guard.speaker.voice, self.reading.take(byte))
    }
}
