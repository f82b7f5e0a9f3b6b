// The four windows that can be defined.
ghost use Rattle.std.specs.Prelude.{◌≡◌};
ghost use Rattle.state.specs.Slots.{at, with_at, clear, clear_all, known, area_of, turned_to};

use commands::words::Slot;
use glass::area::{Area, WHOLE};

#[derive(Clone, Copy, Debug, PartialEq, Eq)]
pub struct Slots {
    pub first: Option<Area>,
    pub second: Option<Area>,
    pub third: Option<Area>,
    pub fourth: Option<Area>,
}

// Whether an area shares no place with a window, if that is defined.
fn is_clear(area: Area, window: Option<Area>) -> bool
    ensures { result ≡ clear area window }
{
    window.is_none_or(|other| area.is_apart(other))
}

// Whether window n is the current one.
pub(crate) fn is_current(current: Option<Slot>, n: Slot) -> bool
    ensures { result ≡ turned_to current n }
{
    current == Some(n)
}

impl Slots {
    pub(crate) fn at(self, n: Slot) -> Option<Area>
        ensures { result ≡ at self n }
    {
        match n {
            Slot::First => self.first,
            Slot::Second => self.second,
            Slot::Third => self.third,
            Slot::Fourth => self.fourth,
        }
    }

    pub(crate) fn with(self, n: Slot, window: Option<Area>) -> Slots
        ensures { result ≡ with_at self n window }
    {
        let mut slots = self;
        match n {
            Slot::First => slots.first = window,
            Slot::Second => slots.second = window,
            Slot::Third => slots.third = window,
            Slot::Fourth => slots.fourth = window,
        }
        slots
    }

    // Whether an area shares no place with any defined window.
    pub(crate) fn leave_clear(self, area: Area) -> bool
        ensures { result ≡ clear_all area self }
    {
        is_clear(area, self.first)
            && is_clear(area, self.second)
            && is_clear(area, self.third)
            && is_clear(area, self.fourth)
    }

    // Window 0, and what is defined.
    pub(crate) fn know(self, window: Option<Slot>) -> bool
        ensures { result ≡ known self window }
    {
        window.is_none_or(|n| self.at(n).is_some())
    }

    // A window's area; window 0 is the whole glass.
    pub(crate) fn area(self, window: Option<Slot>) -> Area
        ensures { result ≡ area_of self window }
    {
        window.and_then(|n| self.at(n)).unwrap_or(WHOLE)
    }
}
