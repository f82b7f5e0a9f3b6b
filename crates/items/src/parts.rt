// An item as a part of its buffer, and the reader that hands them out.
ghost use Rattle.std.specs.Prelude.{◌≤◌, length};

use crate::kinds::Kind;

// How far an item reaches, and its kind.
#[derive(Clone, Copy)]
pub(crate) struct Extent {
    pub(crate) size: usize,
    pub(crate) kind: Kind,
}

/// An item: the place where it starts, from 0, its kind, and its bytes, at least one.
#[derive(Clone, Copy, Debug, PartialEq, Eq)]
pub struct Part<'a> {
    pub place: usize,
    pub kind: Kind,
    pub bytes: &'a [u8],
}

/// The items of a buffer from a place on, read by command sets of the type `S`.
#[derive(Drop)]
pub struct Items<'a, S> {
    // the whole buffer and not what is left of it: the place is told with each part
    pub(crate) buffer: &'a [u8],
    pub(crate) at: usize,
    // the reading at which each item begins
    pub(crate) rest: S,
    ghost ok: { at ≤ length buffer.now },
}
