// Settings of a display: they exist only in their ranges.
ghost use Rattle.std.specs.Prelude.{◌≤◌};

pub mod check;

#[derive(Clone, Copy)]
pub struct Settings {
    set: u8,
    table: u8,
    brightness: u8,
    ghost ranges: { (set ≤ 12) × (table ≤ 8) × (1 ≤ brightness) × (brightness ≤ 4) },
}

// Why settings are refused.
#[derive(Clone, Copy, Debug, PartialEq, Eq)]
pub enum SettingsRefusal {
    Set = 11,
    Table = 12,
    Brightness = 13,
}
