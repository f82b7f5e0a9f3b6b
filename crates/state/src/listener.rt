// The listener: what is being read, and who speaks.
ghost use Rattle.std.specs.Prelude.{◌≡◌, ⊤, true};
ghost use Rattle.state.specs.Voices.{from_host};

use commands::words::Command;
use std::alloc::AllocError;

pub mod calls;

#[derive(Clone, Copy, Debug, PartialEq, Eq)]
pub enum Voice {
    Host,
    Macro,
}

// Who speaks.
#[derive(Clone, Copy, Debug, PartialEq, Eq)]
pub struct Speaker {
    pub voice: Voice,
}

// A command, with who spoke it.
#[derive(Clone, Copy, Debug, PartialEq, Eq)]
pub struct Item {
    pub voice: Voice,
    pub command: Command,
}

// Between calls the host speaks.
#[derive(Copy)]
pub struct Listener<S> {
    reading: S,
    speaker: Speaker,
    ghost host: { from_host speaker.voice ≡ true },
}

// By hand: over a ghost field and a parameter no clone is derived.
impl<S: Copy> Clone for Listener<S> {
    ghost is_clone = { λ listener copy. copy ≡ listener };

    ghost is_infallible = { λ _. ⊤ };

    fn clone(&self) -> Result<Listener<S>, AllocError> {
        Ok(*self)
    }
}
