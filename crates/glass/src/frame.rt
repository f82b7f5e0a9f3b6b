// What lies on the glass by its type, so that whoever is given it need not ask.
ghost use Rattle.std.specs.Prelude.{◌≡◌, true, ◌&&◌, nat_le};
ghost use Rattle.glass.specs.Places.{holds, whole, lawful};

use crate::area::{Area, Position};

/// A column of the glass, 1 to 20.
#[derive(Clone, Copy, Debug, PartialEq, Eq)]
pub struct Column {
    pub number: u8,
    ghost on_glass: { (nat_le 1 number && nat_le number 20) ≡ true },
}

/// A position on the glass: column 1 to 20, row 1 or 2.
#[derive(Clone, Copy, Debug, PartialEq, Eq)]
pub struct GlassPosition {
    pub at: Position,
    ghost on_glass: { holds whole at.column at.row ≡ true },
}

/// An area all of which lies on the glass, with at least one place.
#[derive(Clone, Copy, Debug, PartialEq, Eq)]
pub struct Frame {
    pub area: Area,
    ghost on_glass: { lawful area ≡ true },
}
