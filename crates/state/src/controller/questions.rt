// What a display tells of its state.
ghost use Rattle.std.specs.Prelude.{◌≡◌};
ghost use Rattle.state.specs.Core.{core_of};
ghost use Rattle.state.specs.Lamps.{lamp_lit};
ghost use Rattle.state.specs.Layouts.{cursor_of, window_area};
ghost use Rattle.state.specs.Questions.{modes_of, mode_numbers, user_of, macro_of};

use crate::cell::user_bits;
use crate::controller::Machine;
use commands::words::{Mode, Slot};
use glass::area::{Area, Position};

// The state that is neither glass, cursor, windows, user characters nor macro.
#[derive(Clone, Copy, Debug, PartialEq, Eq)]
pub struct Modes {
    pub mode: Mode,
    // the current window; `None` is window 0, the whole glass
    pub window: Option<Slot>,
    pub cursor: bool,
    pub user: bool,
    pub recording: bool,
    pub playing: bool,
    pub selected: bool,
    pub blink: u8,
    pub table: u8,
    pub set: u8,
    pub brightness: u8,
}

impl Modes {
    // All of them in their order, each by its number; 1 stands for yes.
    pub fn numbers(self) -> [u8; 11]
        ensures { result ≡ mode_numbers self }
    {
        [
            u8::from(self.mode),
            self.window.map_or(0, u8::from),
            u8::from(self.cursor),
            u8::from(self.user),
            u8::from(self.recording),
            u8::from(self.playing),
            u8::from(self.selected),
            self.blink,
            self.table,
            self.set,
            self.brightness,
        ]
    }
}

impl Machine {
    pub fn cursor(&self) -> Position
        ensures { result ≡ cursor_of (core_of self.now).layout }
    {
        self.windows.cursor()
    }

    // The area of a window: 0 is the whole glass, and one that is not defined has none.
    pub fn window(&self, n: u8) -> Option<Area>
        ensures { result ≡ window_area (core_of self.now).layout.slots n }
    {
        self.windows.window(n)
    }

    // The bits of a user character, if it is defined.
    pub fn user(&self, code: u8) -> Option<u64>
        ensures { result ≡ user_of (core_of self.now) code }
    {
        self.users.columns(code).map(user_bits)
    }

    // The macro's nth byte, counted from 1.
    pub fn macro_byte(&self, n: usize) -> Option<u8>
        ensures { result ≡ macro_of (core_of self.now) n }
    {
        self.tape.nth(n)
    }

    pub fn is_lit(&self) -> bool
        ensures { result ≡ lamp_lit (core_of self.now).lamp }
    {
        self.lamp.is_lit()
    }

    pub fn modes(&self) -> Modes
        ensures { result ≡ modes_of (core_of self.now) }
    {
        Modes {
            mode: self.pen.mode,
            window: self.windows.current(),
            cursor: self.shown,
            user: self.pen.user,
            recording: self.tape.is_recording(),
            playing: self.tape.is_playing(),
            selected: self.selected,
            blink: u8::from(self.lamp),
            table: self.pen.table,
            set: self.pen.set,
            brightness: self.brightness,
        }
    }
}
