// A display with the faults that it gave since they were last compared.
use display::Display;
use history::compare::same_lives;
use list::BoundedList;
use panel::Panel;
use std::alloc::{AllocError, Global};
use terms::fault::{Fault, UNUSED};

// Room for the faults of a piece of 96 bytes and of the ticks after it: beyond `new` nothing is allocated.
const MOST_FAULTS: usize = 512;

#[derive(Drop)]
pub struct Watched<P> {
    pub display: Display<P>,
    // lent for a piece's faults, and enough for those of 96 bytes
    places: Vec<Fault>,
    faults: Vec<Fault>,
    // whether a piece was refused, which must not be
    refused: bool,
}

impl<P: Panel + Drop> Watched<P> {
    pub fn new(heap: Global, display: Display<P>) -> Result<Watched<P>, AllocError> {
        Ok(Watched {
            display,
            places: vec![in heap; UNUSED; 192]?,
            faults: Vec::with_capacity(heap, MOST_FAULTS)?,
            refused: false,
        })
    }

    pub fn feed(&mut self, piece: &[u8]) -> Result<(), AllocError> {
        let mut faults = BoundedList::over(self.places.as_mut_slice());
        self.refused |= self.display.feed(piece, &mut faults).is_err();
        self.faults.extend_from_slice(faults.as_slice())
    }

    pub fn tick(&mut self) -> Result<(), AllocError> {
        if let Some(fault) = self.display.tick() {
            self.faults.push(fault)?;
        }
        Ok(())
    }

    pub fn faults(&self) -> &[Fault] {
        self.faults.as_slice()
    }

    pub fn forget(&mut self) {
        self.faults.clear();
    }

    // Whether another display answers every question alike, and gave the same faults; not where a piece was refused.
    pub fn is_like<Q: Panel + Drop>(&self, other: &Watched<Q>) -> bool {
        !self.refused
            && !other.refused
            && same_lives(&self.display, self.faults(), &other.display, other.faults())
    }
}
