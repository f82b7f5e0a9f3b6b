// Recording, playing, and what a tick does to the macro.
ghost use Rattle.std.specs.Prelude.{◌≡◌, true, take};
ghost use Rattle.state.specs.Reels.{lawful_reel, is_playing, is_recording};
ghost use Rattle.state.specs.Tapes.{reel_of, blank_reel, recorded, stored, overflow, playing, stopped, wound, due, macro_byte};

use crate::tape::{Tape, Use};
use commands::words::Refusal;

// The most bytes that a recording stores.
const MOST: u8 = 82;

impl Tape {
    pub(crate) fn new() -> Tape
        ensures { reel_of result ≡ blank_reel }
    {
        Tape {
            bytes: [0; 82],
            len: 0,
            current: Use::Blank,
        }
    }

    pub(crate) fn is_recording(&self) -> bool
        ensures { result ≡ is_recording (reel_of self.now).current }
    {
        self.current == Use::Recording
    }

    pub(crate) fn is_playing(&self) -> bool
        ensures { result ≡ is_playing (reel_of self.now).current }
    {
        matches!(self.current, Use::Playing { .. })
    }

    fn set(&mut self, len: u8, current: Use)
        requires { lawful_reel current len ≡ true }
        ensures { reel_of self.new ≡ record { current = current; bytes = take len self.old.bytes } }
    {
        self.len = len;
        self.current = current;
    }

    // Opens a recording, or closes it: its last two bytes are the pair that closes it.
    pub(crate) fn record(&mut self)
        ensures { reel_of self.new ≡ recorded (reel_of self.old) }
    {
        match self.current {
            Use::Recording if self.len > 2 => self.set(self.len - 2, Use::Stored),
            Use::Recording => self.set(0, Use::Blank),
            _ => self.set(0, Use::Recording),
        }
    }

    // A recording stores a byte; the eighty-third ends it.
    pub(crate) fn store(&mut self, byte: u8) -> Option<Refusal>
        ensures fault { result ≡ overflow (reel_of self.old) }
        ensures reel { reel_of self.new ≡ stored (reel_of self.old) byte }
    {
        match self.current {
            Use::Recording if self.len < MOST => {
                self.bytes[self.len as usize] = byte;
                self.len += 1;
                None
            }
            Use::Recording => {
                self.set(0, Use::Blank);
                Some(Refusal::RecordingFull)
            }
            _ => None,
        }
    }

    // Starts to play at a pace. (Two clauses: no other call of a tape answers so.)
    pub(crate) fn play(&mut self, n: u8, m: u8) -> Result<(), Refusal>
        ensures answer { result ≡ (playing (reel_of self.old) n m).answer }
        ensures left { reel_of self.new ≡ (playing (reel_of self.old) n m).left }
    {
        match self.current {
            Use::Recording => Err(Refusal::PlayRefused),
            Use::Blank => Err(Refusal::NoMacro),
            _ => {
                self.current = Use::Playing {
                    n,
                    m,
                    wait: 2 * n as u16,
                    next: 0,
                };
                Ok(())
            }
        }
    }

    pub(crate) fn stop(&mut self)
        ensures { reel_of self.new ≡ stopped (reel_of self.old) }
    {
        if self.is_playing() {
            self.current = Use::Stored;
        }
    }

    // One tick: the byte that it brings, if any.
    pub(crate) fn tick(&mut self) -> Option<u8>
        ensures due { result ≡ due (reel_of self.old) }
        ensures reel { reel_of self.new ≡ wound (reel_of self.old) }
    {
        let Use::Playing { n, m, wait, next } = self.current else {
            return None;
        };
        if wait > 1 {
            self.current = Use::Playing {
                n,
                m,
                wait: wait - 1,
                next,
            };
            return None;
        }
        let byte = self.bytes[next as usize];
        let pause = 2 * n as u16;
        self.current = if next + 1 < self.len {
            Use::Playing {
                n,
                m,
                wait: pause,
                next: next + 1,
            }
        } else {
            Use::Playing {
                n,
                m,
                wait: 5 * m as u16 + pause,
                next: 0,
            }
        };
        Some(byte)
    }

    // The macro's nth byte, counted from 1.
    pub(crate) fn nth(&self, n: usize) -> Option<u8>
        ensures { result ≡ macro_byte (reel_of self.now) n }
    {
        match self.current {
            Use::Blank | Use::Recording => None,
            _ if n >= 1 && n <= self.len as usize => Some(self.bytes[n - 1]),
            _ => None,
        }
    }
}
