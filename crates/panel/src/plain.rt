// The plain panel: a picture, and nothing to do when it is painted.
ghost use Rattle.std.specs.Prelude.{◌≡◌, length, replicate, slice_set};
ghost use Rattle.std.proofs.Common.{ap};

use crate::panel::{Panel, PanelRefusal};
use crate::picture::Picture;

#[derive(Drop)]
pub struct PlainPanel {
    picture: Picture,
    ghost forty: { length picture.held ≡ 40 },
}

impl PlainPanel {
    // Blank everywhere.
    pub fn new() -> PlainPanel
        ensures { result.picture.held ≡ replicate 40 32 }
    {
        PlainPanel {
            picture: Picture::blank(),
        }
    }
}

impl Panel for PlainPanel {
    ghost make = { record { cells = λ p. p.picture.held; puts = λ p place cell q. q.picture.held ≡ slice_set p.picture.held place cell; paints = λ p q. q ≡ p } };

    ghost laws = { record { forty = λ p. p.forty; putting = λ p q place cell h. h; painting = λ p q h. ap (λ x. x.picture.held) h } };

    fn put(&mut self, place: usize, cell: u64) -> Result<(), PanelRefusal> {
        self.picture.put(place, cell)
    }

    fn look(&self, place: usize) -> Result<u64, PanelRefusal> {
        self.picture.look(place)
    }

    fn painted(&mut self) {}
}
