// The first two bytes of the commands that can be malformed or refused.
ghost use Rattle.std.specs.Prelude.{◌≡◌};
ghost use Rattle.escpos.specs.Names.{marked};

use commands::words::{ESC, Mark, Name, US};

pub(crate) const GO_TO: Name = Name {
    first: US,
    second: b'$',
};

pub(crate) const CURSOR: Name = Name {
    first: US,
    second: b'C',
};

pub(crate) const BRIGHTNESS: Name = Name {
    first: US,
    second: b'X',
};

pub(crate) const PLAY: Name = Name {
    first: US,
    second: b'^',
};

pub(crate) const SELECT: Name = Name {
    first: ESC,
    second: b'=',
};

pub(crate) const WINDOW: Name = Name {
    first: ESC,
    second: b'W',
};

pub(crate) const SET: Name = Name {
    first: ESC,
    second: b'R',
};

pub(crate) const TABLE: Name = Name {
    first: ESC,
    second: b't',
};

pub(crate) const USER: Name = Name {
    first: ESC,
    second: b'%',
};

pub(crate) const FORGET: Name = Name {
    first: ESC,
    second: b'?',
};

pub(crate) const DEFINE: Name = Name {
    first: ESC,
    second: b'&',
};

// The command that writes a character with a mark.
pub(crate) fn marked(mark: Mark) -> Name
    ensures { result ≡ marked mark }
{
    let second = match mark {
        Mark::Point => b'.',
        Mark::Comma => b',',
        Mark::Semicolon => b';',
    };
    Name { first: US, second }
}
