// What every make of panel must show.
ghost use Rattle.std.specs.Prelude.{◌≡◌, ◌<◌, ◌≤◌, if◌then◌else◌, Ok, Err, nat_lt, slice_index};
ghost use Rattle.panel.specs.Laws.{Make, Laws};
ghost use Rattle.panel.specs.Numbers.{panel_refusal};

#[derive(Clone, Copy, Debug, PartialEq, Eq)]
pub enum PanelRefusal {
    OffGlass = 41,
}

// The number by which it is told.
impl From<PanelRefusal> for u8 {
    ghost from_gives = { λ refusal number. number ≡ panel_refusal refusal };

    fn from(refusal: PanelRefusal) -> u8 {
        refusal as u8
    }
}

pub trait Panel {
    // What a panel of this make means.
    ghost make: { Make Self };

    // Refused exactly above place 39, and then the panel is as it was.
    fn put(&mut self, place: usize, cell: u64) -> Result<(), PanelRefusal>
        ensures answer { result ≡ (if nat_lt place 40 then Ok tt else Err PanelRefusal.OffGlass) }
        ensures puts { place < 40 → make.puts self.old place cell self.new }
        ensures refused { 40 ≤ place → self.new ≡ self.old };

    fn look(&self, place: usize) -> Result<u64, PanelRefusal>
        ensures { result ≡ (if nat_lt place 40 then Ok (slice_index (make.cells self.now) place) else Err PanelRefusal.OffGlass) };

    // Tells the panel that what it holds was shown.
    fn painted(&mut self)
        ensures { make.paints self.old self.new };

    // What each make shows of its meaning.
    ghost laws: { Laws make };
}
