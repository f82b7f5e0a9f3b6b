// A display that is on, with all that it was given since, and what the makes of its panel differ in.
use display::Display;
use history::compare::same_lives;
use history::replay::{Happening, replay};
use painter::{Pending, waiting};
use panel::{Panel, PlainPanel};
use std::alloc::{AllocError, Global};
use strip::{NO_CHANGE, StripPanel};
use terms::fault::Fault;
use terms::settings::Settings;

// A replay over a strip panel has so many places, and is painted before each so many happenings: text fits, and a
// scroll runs the list over.
const REPLAY_PLACES: usize = 7;

const REPLAY_PAINTS: usize = 5;

#[derive(Drop)]
pub struct Life<P> {
    settings: Settings,
    pub display: Display<P>,
    pub happened: Vec<Happening>,
    pub faults: Vec<Fault>,
}

impl<P: Panel + Drop> Life<P> {
    pub fn switch_on(heap: Global, settings: Settings, panel: P) -> Life<P> {
        Life {
            settings,
            display: Display::switch_on(settings, panel),
            happened: Vec::new(heap),
            faults: Vec::new(heap),
        }
    }

    // Whether all that the display was given comes to the same once more: given to a new one over another panel, byte
    // by byte, and painted at moments of its own. What happened goes in by parts, with the paintings between, since a copy
    // of it with the paintings in would take its memory once more.
    fn is_same_over<Q: Panel + Drop>(&self, heap: Global, panel: Q) -> Result<bool, AllocError> {
        let mut again = replay(heap, self.settings, panel, &[])?;
        for happened in self.happened.as_slice().chunks(REPLAY_PAINTS) {
            again.go_on(&[Happening::Painted])?;
            again.go_on(happened)?;
        }
        Ok(same_lives(
            &self.display,
            self.faults.as_slice(),
            &again.display,
            again.faults.as_slice(),
        ))
    }
}

// A make of panel that a script can ask for.
pub trait Made: Panel + Drop + Sized {
    // What is still to be painted, where the make keeps a list of it.
    fn pending(display: &Display<Self>) -> Option<Pending>;

    // Whether a life comes to the same over a panel of the other make.
    fn is_same_again(life: &Life<Self>, heap: Global) -> Result<bool, AllocError>;
}

impl Made for PlainPanel {
    fn pending(_display: &Display<Self>) -> Option<Pending> {
        None
    }

    fn is_same_again(life: &Life<Self>, heap: Global) -> Result<bool, AllocError> {
        let mut changes = [NO_CHANGE; REPLAY_PLACES];
        life.is_same_over(heap, StripPanel::over(&mut changes))
    }
}

impl Made for StripPanel<'_> {
    fn pending(display: &Display<Self>) -> Option<Pending> {
        Some(waiting(display))
    }

    fn is_same_again(life: &Life<Self>, heap: Global) -> Result<bool, AllocError> {
        life.is_same_over(heap, PlainPanel::new())
    }
}
