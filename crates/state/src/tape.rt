// The tape: the bytes of a recording or of the macro.
ghost use Rattle.std.specs.Prelude.{◌≡◌, true, length};
ghost use Rattle.state.specs.Reels.{lawful_reel};

pub mod calls;

// What the tape is used for.
#[derive(Clone, Copy, Debug, PartialEq, Eq)]
pub enum Use {
    // there is no macro
    Blank,
    Recording,
    // there is a macro
    Stored,
    // the macro is played: its pace n and m, the ticks to wait, and which byte comes next
    Playing { n: u8, m: u8, wait: u16, next: u8 },
}

// A recording has at most 82 bytes, the pair that closes it among them; so a macro has 1 to 80. (An array and a length: the
// memory of a device is fixed.)
#[derive(Clone, Copy)]
pub struct Tape {
    bytes: [u8; 82],
    len: u8,
    current: Use,
    ghost size: { length bytes ≡ 82 },
    ghost bounds: { lawful_reel current len ≡ true },
}
