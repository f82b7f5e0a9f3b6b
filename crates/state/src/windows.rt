// The window record: what is defined, which window is current, and the cursor.
ghost use Rattle.std.specs.Prelude.{◌≡◌, true, false};
ghost use Rattle.commands.specs.declared.words.Slot.{Slot};
ghost use Rattle.glass.specs.Places.{holds};
ghost use Rattle.state.specs.Slots.{clears, fits, at, same, known, area_of};

use crate::slots::Slots;
use commands::words::Slot;
use glass::area::Position;

pub mod calls;

// Defined windows share no place and lie on the glass; the current one is defined, and the cursor is inside it.
#[derive(Clone, Copy)]
pub struct Windows {
    slots: Slots,
    current: Option<Slot>,
    cursor: Position,
    ghost sharing: { (n m : Slot) → same n m ≡ false → clears (at slots n) (at slots m) ≡ true },
    ghost fitting: { (n : Slot) → fits (at slots n) ≡ true },
    ghost defined: { known slots current ≡ true },
    ghost inside: { holds (area_of slots current) cursor.column cursor.row ≡ true },
}
