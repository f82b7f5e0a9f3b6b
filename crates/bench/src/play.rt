// The day in pieces of several sizes, over both panels.
ghost use Rattle.std.specs.Prelude.{◌<◌};

use crate::day::Day;
use crate::seen::Seen;
use crate::watched::Watched;
use anyhow::Context;
use display::engine::LONGEST;
use panel::{Panel, PlainPanel};
use std::alloc::Global;
use strip::{Change, NO_CHANGE, StripPanel};

// The places of a strip panel.
pub const STRIP: [Change; 16] = [NO_CHANGE; 16];

// After so many pauses the panel is painted.
const PAINTED: usize = 3;

// Plays the day on a new display over the panel.
fn play<P: Panel + Drop>(heap: Global, panel: P, day: &Day, size: usize) -> anyhow::Result<Seen>
    requires { 0 < size }
{
    let mut watched = Watched::new(heap, panel)?;
    let mut start = 0;
    for (n, pause) in day.pauses.iter().enumerate() {
        let bytes = day.bytes.as_slice().get(start..pause.end);
        watched.feed_all(bytes.context("a pause is off the day")?, size)?;
        watched.look();
        watched.wait(pause.ticks);
        if n % PAINTED == 0 {
            watched.display.painted();
        }
        start = pause.end;
    }
    Ok(watched.seen)
}

fn play_both(rt: &HostRuntime, day: &Day, size: usize) -> anyhow::Result<()>
    requires { 0 < size }
{
    let seen = play(rt.alloc(), PlainPanel::new(), day, size)?;
    println!(rt; "plain panel, pieces of {size}: {seen}")?;
    let mut changes = STRIP;
    let seen = play(rt.alloc(), StripPanel::over(&mut changes), day, size)?;
    println!(rt; "strip panel, pieces of {size}: {seen}")?;
    Ok(())
}

pub fn all(rt: &HostRuntime, day: &Day) -> anyhow::Result<()> {
    for size in [1, 7, 64, LONGEST] {
        play_both(rt, day, size)?;
    }
    Ok(())
}
