// Forty cells, which a plain panel is and a strip panel has in it.
ghost use Rattle.std.specs.Prelude.{◌≡◌, ◌<◌, ◌≤◌, if◌then◌else◌, Ok, Err, nat_lt, replicate, slice_index, slice_set};
ghost use Rattle.panel.specs.Forty.{forty};

use crate::panel::PanelRefusal;
use glass::area::PLACES;
use glass::stroke::BLANK;

// No ghost field says that there are forty, since no display can hold a panel that has such a struct beside a `&mut`. So each
// promise stands twice: of the array, and of the forty numbers that any list has (`forty`).
#[derive(Drop)]
pub struct Picture {
    held: [u64; PLACES],
}

impl Picture {
    // Blank everywhere.
    pub fn blank() -> Picture
        ensures held { result.held ≡ replicate 40 32 }
        ensures forty { forty result.held ≡ replicate 40 32 }
    {
        Picture {
            held: [BLANK; PLACES],
        }
    }

    // Refused exactly above place 39, and then the picture is as it was.
    pub fn put(&mut self, place: usize, cell: u64) -> Result<(), PanelRefusal>
        ensures answer { result ≡ (if nat_lt place 40 then Ok tt else Err PanelRefusal.OffGlass) }
        ensures puts { place < 40 → self.new.held ≡ slice_set self.old.held place cell }
        ensures refused { 40 ≤ place → self.new ≡ self.old }
        ensures forty { forty self.new.held ≡ slice_set (forty self.old.held) place cell }
    {
        if place < self.held.len() {
            self.held[place] = cell;
            Ok(())
        } else {
            Err(PanelRefusal::OffGlass)
        }
    }

    pub fn look(&self, place: usize) -> Result<u64, PanelRefusal>
        ensures held { result ≡ (if nat_lt place 40 then Ok (slice_index self.now.held place) else Err PanelRefusal.OffGlass) }
        ensures forty { result ≡ (if nat_lt place 40 then Ok (slice_index (forty self.now.held) place) else Err PanelRefusal.OffGlass) }
    {
        self.held.get(place).copied().ok_or(PanelRefusal::OffGlass)
    }
}
