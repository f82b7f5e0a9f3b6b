// What a script is made of, and what comes of it.
use display::engine::Display;
use terms::fault::Fault;

// What a display is given: a byte, a tick, or the word that it was painted, which is no event of the rules.
#[derive(Clone, Copy, Debug, PartialEq, Eq)]
pub enum Happening {
    Byte { byte: u8 },
    Tick,
    Painted,
}

// The display at the script's end, and its faults in order.
#[derive(Drop)]
pub struct Replayed<P, S> {
    pub display: Display<P, S>,
    pub faults: Vec<Fault>,
}
