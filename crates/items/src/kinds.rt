// The kinds of items.
ghost use Rattle.std.specs.Prelude.{◌≡◌};
ghost use Rattle.items.specs.Kinds.{kind_number};

/// What an item is.
#[derive(Clone, Copy, Debug, PartialEq, Eq)]
pub enum Kind {
    // a plain character, of one byte
    Character = 1,
    // a whole command; a character with a mark is one
    Command = 2,
    // a byte that is ignored at rest
    Ignored = 3,
    // a malformed command, with the byte that makes it so
    Faulty = 4,
    // the start of a command, at the end of the buffer
    Unfinished = 5,
}

// The number by which it is told.
impl From<Kind> for u8 {
    ghost from_gives = { λ kind number. number ≡ kind_number kind };

    fn from(kind: Kind) -> u8 {
        kind as u8
    }
}
