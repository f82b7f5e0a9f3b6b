// A script of bytes, ticks and paintings, given to a new display, whole or in parts.
ghost use Rattle.std.specs.Prelude.{◌≡◌, ◌++◌, IfOk, OnOk};
ghost use Rattle.state.specs.Model.{fault_of};
ghost use Rattle.terms.specs.Presets.{preset};
ghost use Rattle.history.specs.Lives.{Life};
ghost use Rattle.history.specs.Bounds.{Bounds};
ghost use Rattle.history.specs.History.{History};
ghost use Rattle.history.specs.Malformed.{Malformed};
ghost use Rattle.history.specs.Named.{Named};
ghost use Rattle.history.specs.Replays.{GoesThrough, Handled, Happens, LivesOn, events_of};

use commands::sets::CommandSets;
use display::engine::Display;
use list::BoundedList;
use panel::Panel;
use std::alloc::{AllocError, Global};
use terms::fault::{Fault, UNUSED};
use terms::settings::Settings;

mod words;

pub use words::{Happening, Replayed};

fn collect(faults: &mut Vec<Fault>, fault: Option<Fault>) -> Result<(), AllocError>
    ensures { OnOk result (faults.new.items ≡ faults.old.items ++ fault_of fault) }
{
    if let Some(fault) = fault {
        faults.push(fault)?;
    }
    Ok(())
}

// A byte is a piece of its own, and two places are enough for its faults.
#[tactic(auto, using(crate::proofs::Replayed::gives_byte))]
fn give_byte<P: Panel, S: CommandSets>(
    display: &mut Display<P, S>,
    byte: u8,
    faults: &mut Vec<Fault>,
) -> Result<(), AllocError>
    ensures { OnOk result (Happens P.make S.reads (Happening.Byte byte) display.old faults.old.items display.new faults.new.items) }
{
    let mut places = [UNUSED; 2];
    let mut list = BoundedList::over(&mut places);
    let _ = display.feed(&[byte], &mut list);
    collect(faults, list.nth(0))?;
    collect(faults, list.nth(1))
}

fn happen<P: Panel, S: CommandSets>(
    display: &mut Display<P, S>,
    happening: Happening,
    faults: &mut Vec<Fault>,
) -> Result<(), AllocError>
    ensures { OnOk result (Happens P.make S.reads happening display.old faults.old.items display.new faults.new.items) }
{
    match happening {
        Happening::Byte { byte } => give_byte(display, byte, faults),
        Happening::Tick => collect(faults, display.tick()),
        Happening::Painted => {
            display.painted();
            Ok(())
        }
    }
}

// The loop of both calls below.
fn go_through<P: Panel, S: CommandSets>(
    display: &mut Display<P, S>,
    script: &[Happening],
    faults: &mut Vec<Fault>,
) -> Result<(), AllocError>
    ensures { OnOk result (GoesThrough P.make S.reads script.now display.old faults.old.items display.new faults.new.items) }
{
    for happening in script {
        happen(display, *happening, faults)?;
    }
    Ok(())
}

// Switches a new display on and gives it a script, each byte as a piece of its own; the faults are collected in order.
pub fn replay<P: Panel + Drop, S: CommandSets>(
    heap: Global,
    settings: Settings,
    panel: P,
    script: &[Happening],
) -> Result<Replayed<P, S>, AllocError>
    ensures lived { IfOk result (λ x. Life P.make S.reads (preset settings) (events_of script.now) x.faults.items x.display) }
    ensures panel { IfOk result (λ x. Handled P.make panel script.now x.display.panel) }
    ensures history { History P.make P.make S.reads }
    ensures malformed { Malformed S.reads }
    ensures bounds { Bounds P.make S.reads }
    ensures named { Named P.make S.reads }
{
    let mut display = Display::switch_on(settings, panel);
    let mut faults = Vec::new(heap);
    go_through(&mut display, script, &mut faults)?;
    Ok(Replayed { display, faults })
}

impl<P: Panel, S: CommandSets> Replayed<P, S> {
    // Gives the display more of a script, and collects the faults after those before: a long script need not lie in one piece.
    // After an `Err` it has gone through some of this part, and a fault of it may be missing.
    #[tactic(auto, using(crate::proofs::Replayed::lives_on))]
    pub fn go_on(&mut self, script: &[Happening]) -> Result<(), AllocError>
        ensures lived { OnOk result (LivesOn P.make S.reads script.now self.old.display self.old.faults.items self.new.display self.new.faults.items) }
        ensures script { OnOk result (GoesThrough P.make S.reads script.now self.old.display self.old.faults.items self.new.display self.new.faults.items) }
    {
        go_through(&mut self.display, script, &mut self.faults)
    }
}
