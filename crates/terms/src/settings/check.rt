// Settings are made by a check.
ghost use Rattle.std.specs.Prelude.{◌≡◌};
ghost use Rattle.terms.specs.Presets.{Checked, preset, settings_refusal};

use crate::settings::{Settings, SettingsRefusal};

impl Settings {
    pub fn check(set: u8, table: u8, brightness: u8) -> Result<Settings, SettingsRefusal>
        ensures { Checked set table brightness result }
    {
        if set > 12 {
            Err(SettingsRefusal::Set)
        } else if table > 8 {
            Err(SettingsRefusal::Table)
        } else if !(1..=4).contains(&brightness) {
            Err(SettingsRefusal::Brightness)
        } else {
            Ok(Settings {
                set,
                table,
                brightness,
            })
        }
    }

    pub fn set(self) -> u8
        ensures { result ≡ (preset self).set }
    {
        self.set
    }

    pub fn table(self) -> u8
        ensures { result ≡ (preset self).table }
    {
        self.table
    }

    pub fn brightness(self) -> u8
        ensures { result ≡ (preset self).brightness }
    {
        self.brightness
    }
}

// The number by which it is told.
impl From<SettingsRefusal> for u8 {
    ghost from_gives = { λ refusal number. number ≡ settings_refusal refusal };

    fn from(refusal: SettingsRefusal) -> u8 {
        refusal as u8
    }
}
