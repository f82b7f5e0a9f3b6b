// `endure` lives a long life by chance, of ten million bytes and ticks or as many as its argument says, and counts what came of it.
#![tactic(auto)]

mod dice;
mod life;
mod page;
mod sum;
mod tally;
mod till;
mod watched;
mod writer;

use anyhow::Context;
use life::Life;
use std::env;
use strip::{NO_CHANGE, StripPanel};
use terms::settings::Settings;
use till::Till;

const EVENTS: usize = 10_000_000;

// The seeds of what is said, and of how it is cut.
const SAID: u64 = 1;

const CUT: u64 = 2;

fn events(rt: &HostRuntime) -> anyhow::Result<usize> {
    match env::args(rt)?.nth(1) {
        Some(word) => Ok(word.as_str().parse()?),
        None => Ok(EVENTS),
    }
}

fn run(rt: &HostRuntime) -> anyhow::Result<()> {
    let settings = Settings::check(5, 2, 3).ok().context("settings")?;
    let mut till = Till::new(SAID, events(rt)?);
    // So few places that the list of changes is often full.
    let mut places = [NO_CHANGE; 5];
    let mut life = Life::new(rt.alloc(), settings, CUT, StripPanel::over(&mut places))?;
    // A turn may spend no event, so no measure of the till's ends the loop.
    for _ in 0..u64::MAX {
        let Some(turn) = till.turn() else {
            break;
        };
        life.turn(rt, turn)?;
    }
    rt.println(&life.tally)?;
    Ok(())
}

fn main(rt: HostRuntime) -> anyhow::Result<()> {
    run(&rt)
}
