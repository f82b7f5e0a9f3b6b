// The walk over a buffer, item by item.
ghost use Rattle.std.specs.Prelude.{◌≡◌, ◌<◌, ◌≤◌, length, IfOk};
ghost use Rattle.items.specs.Extents.{ending, extent_of};
ghost use Rattle.items.specs.Handed.{Walked, Counted, Whole};
ghost use Rattle.items.specs.Hands.{Hands, WholeWalk, bytes_left};
ghost use Rattle.std.specs.Iterator.{at_most};

use crate::kinds::Kind;
use crate::parts::{Extent, Items, Part};
use commands::outcome::Outcome;
use commands::sets::CommandSets;
use commands::words::{Command, Dialect};
use std::alloc::{AllocError, Global};

// The kind of the item that an outcome ends, if it ends one.
fn ended(outcome: Outcome) -> Option<Kind>
    ensures { result ≡ ending outcome }
{
    match outcome {
        Outcome::Pending | Outcome::Partial { .. } => None,
        Outcome::Ignored => Some(Kind::Ignored),
        Outcome::Complete {
            command: Command::Character { mark: None, .. },
        } => Some(Kind::Character),
        Outcome::Complete { .. } => Some(Kind::Command),
        Outcome::Faulty { .. } => Some(Kind::Faulty),
    }
}

// The item at the front of the bytes, read from a reading on.
fn extent<S: CommandSets>(mut reading: S, bytes: &[u8]) -> Extent
    ensures item { result ≡ extent_of S.reads reading bytes.now }
    ensures within { result.size ≤ length bytes.now }
    ensures some { 0 < length bytes.now → 0 < result.size }
{
    for (i, &byte) in bytes.iter().enumerate() {
        if let Some(kind) = ended(reading.take(byte)) {
            return Extent { size: i + 1, kind };
        }
    }
    Extent {
        size: bytes.len(),
        kind: Kind::Unfinished,
    }
}

impl<'a, S: CommandSets> Items<'a, S> {
    /// The items of a buffer by one command set, from its first byte on, which is read at rest.
    pub fn new(buffer: &'a [u8], dialect: Dialect) -> Items<'a, S>
        ensures { (result.buffer ≡ buffer.entry) × (result.at ≡ 0) × (result.rest ≡ S.reads.rest dialect) }
    {
        Items {
            buffer,
            at: 0,
            rest: S::at_rest(dialect),
        }
    }
}

impl<'a, S: CommandSets> Iterator for Items<'a, S> {
    type Item = Part<'a>;

    ghost next_gives = { Hands S.reads };

    ghost remaining = { λ s. at_most (bytes_left s) };

    /// The item at the place reached, as a part of the buffer; `None` at the end, and again `None`.
    fn next(&mut self) -> Option<Part<'a>> {
        let place = self.at;
        let left = &self.buffer[place..];
        if left.is_empty() {
            return None;
        }
        let Extent { size, kind } = extent(self.rest, left);
        self.at += size;
        Some(Part {
            place,
            kind,
            bytes: &left[..size],
        })
    }
}

/// All items of a buffer by one command set, in order: joined they are the buffer.
pub fn walk<'a, S: CommandSets>(
    heap: Global,
    buffer: &'a [u8],
    dialect: Dialect,
) -> Result<Vec<Part<'a>>, AllocError>
    ensures items { IfOk result (λ v. Walked S.reads (S.reads.rest dialect) buffer.now 0 v.items (length buffer.now)) }
    ensures whole { IfOk result (λ v. Whole S.reads (S.reads.rest dialect) buffer.now v.items) }
    ensures always { WholeWalk S.reads }
{
    Items::<S>::new(buffer, dialect).collect(heap)
}

/// How many items a buffer has by one command set, by a walk that keeps none of them.
pub fn count<S: CommandSets>(buffer: &[u8], dialect: Dialect) -> usize
    ensures items { Counted S.reads (S.reads.rest dialect) buffer.now result }
    ensures always { WholeWalk S.reads }
{
    Items::<S>::new(buffer, dialect).count()
}
