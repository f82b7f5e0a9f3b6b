// The cells of a rows panel, behind the interface of all panels.
ghost use Rattle.std.specs.Prelude.{◌≡◌, ◌+◌, ◌-◌, ◌^◌, min, ◌++◌, slice_set};
ghost use Rattle.std.proofs.Common.{ap, ◌∙◌, arith};
ghost use Rattle.std.proofs.lemmas.List.{length-append};

use crate::rows::RowsPanel;
use glass::area::{COLUMNS, PLACES};
use panel::{Panel, PanelRefusal};

impl Panel for RowsPanel {
    ghost make = { record {
      cells = λ p. p.upper ++ p.lower;
      puts = λ p place cell q. (q.upper ++ q.lower ≡ slice_set (p.upper ++ p.lower) place cell) × (q.puts ≡ min (p.puts + 1) (2 ^ 64 - 1));
      paints = λ p q. q ≡ p;
    } };

    ghost laws = { record {
      forty = λ p. length-append p.upper p.lower ∙ omega (arith, p.twenty.0, p.twenty.1);
      putting = λ p q place cell h. h.0;
      painting = λ p q h. ap (λ x. x.upper ++ x.lower) h;
    } };

    fn put(&mut self, place: usize, cell: u64) -> Result<(), PanelRefusal> {
        if place >= PLACES {
            return Err(PanelRefusal::OffGlass);
        }
        if place < COLUMNS {
            self.upper[place] = cell;
        } else {
            self.lower[place - COLUMNS] = cell;
        }
        self.puts = self.puts.saturating_add(1);
        Ok(())
    }

    fn look(&self, place: usize) -> Result<u64, PanelRefusal> {
        let held = if place < COLUMNS {
            self.upper.get(place)
        } else {
            self.lower.get(place - COLUMNS)
        };
        held.copied().ok_or(PanelRefusal::OffGlass)
    }

    fn painted(&mut self) {}
}
