// The lamp: lit, dark, or blinking.
ghost use Rattle.std.specs.Prelude.{◌≡◌};
ghost use Rattle.state.specs.Lamps.{lamp_set, lamp_ticked, lamp_lit, lamp_number};

#[derive(Clone, Copy, Debug, PartialEq, Eq)]
pub enum Lamp {
    Lit,
    Dark,
    // `ticks` since the command, modulo ten times the period
    Blinking { period: u8, ticks: u16 },
}

impl Lamp {
    pub(crate) fn set(period: u8) -> Lamp
        ensures { result ≡ lamp_set period }
    {
        match period {
            0 => Lamp::Lit,
            255 => Lamp::Dark,
            _ => Lamp::Blinking { period, ticks: 0 },
        }
    }

    pub(crate) fn ticked(self) -> Lamp
        ensures { result ≡ lamp_ticked self }
    {
        match self {
            Lamp::Lit => Lamp::Lit,
            Lamp::Dark => Lamp::Dark,
            Lamp::Blinking { period, ticks } => {
                let next = ticks.saturating_add(1);
                let ticks = if next < 10 * period as u16 { next } else { 0 };
                Lamp::Blinking { period, ticks }
            }
        }
    }

    pub(crate) fn is_lit(self) -> bool
        ensures { result ≡ lamp_lit self }
    {
        match self {
            Lamp::Lit => true,
            Lamp::Dark => false,
            Lamp::Blinking { period, ticks } => ticks < 5 * period as u16,
        }
    }
}

// The period of the command that set it.
impl From<Lamp> for u8 {
    ghost from_gives = { λ lamp number. number ≡ lamp_number lamp };

    fn from(lamp: Lamp) -> u8 {
        match lamp {
            Lamp::Lit => 0,
            Lamp::Dark => 255,
            Lamp::Blinking { period, .. } => period,
        }
    }
}
