// A display, with places for a piece's faults and with what was seen of it.
ghost use Rattle.std.specs.Prelude.{◌<◌};

use crate::seen::Seen;
use anyhow::Context;
use display::Display;
use display::engine::LONGEST;
use list::BoundedList;
use panel::Panel;
use std::alloc::Global;
use terms::fault::{Fault, UNUSED};
use terms::settings::Settings;

#[derive(Drop)]
pub struct Watched<P> {
    pub display: Display<P>,
    places: Vec<Fault>,
    pub seen: Seen,
}

impl<P: Panel + Drop> Watched<P> {
    // A new display over the panel.
    pub fn new(heap: Global, panel: P) -> anyhow::Result<Watched<P>> {
        let settings = Settings::check(0, 0, 4)
            .ok()
            .context("settings were refused")?;
        Ok(Watched {
            display: Display::switch_on(settings, panel),
            places: vec![in heap; UNUSED; 2 * LONGEST]?, // enough for any piece
            seen: Seen::default(),
        })
    }

    // Feeds a piece, and sees its faults.
    pub fn feed(&mut self, piece: &[u8]) -> anyhow::Result<()> {
        let mut faults = BoundedList::over(self.places.as_mut_slice());
        self.display
            .feed(piece, &mut faults)
            .ok()
            .context("a piece was refused")?;
        self.seen.bytes(piece.len());
        for fault in faults.as_slice() {
            self.seen.fault(*fault);
        }
        Ok(())
    }

    pub fn feed_all(&mut self, bytes: &[u8], size: usize) -> anyhow::Result<()>
        requires { 0 < size }
    {
        for piece in bytes.chunks(size) {
            self.feed(piece)?;
        }
        Ok(())
    }

    pub fn look(&mut self) {
        self.seen.look(&self.display);
    }

    // Looks at the display after every tick.
    pub fn wait(&mut self, ticks: u32) {
        for _ in 0..ticks {
            if let Some(fault) = self.display.tick() {
                self.seen.fault(fault);
            }
            self.seen.tick();
            self.look();
        }
    }
}
