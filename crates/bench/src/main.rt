// `bench` plays a till's day and prints what every machine must print alike; `bench time` also says how fast it goes.
#![tactic(auto)]

mod day;
mod play;
mod seen;
mod sum;
mod time;
mod watched;

use day::Day;
use std::env;

// How many sales are played in pieces of every size on every panel, and how many are timed.
const FEW: u32 = 1000;

const MANY: u32 = 18_000;

fn run(rt: &HostRuntime) -> anyhow::Result<()> {
    let day = Day::of(rt.alloc(), FEW)?;
    play::all(rt, &day)?;
    for word in env::args(rt)?.skip(1) {
        if word.as_str() == "time" {
            let day = Day::of(rt.alloc(), MANY)?;
            time::all(rt, &day, MANY)?;
        }
    }
    Ok(())
}

fn main(rt: HostRuntime) -> anyhow::Result<()> {
    run(&rt)
}
