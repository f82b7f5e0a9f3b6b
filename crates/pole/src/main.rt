// `pole` carries out a script on displays and prints the answers (RULES, Script of the program).
#![tactic(auto)]

mod answers;
mod life;
mod play;
mod show;

use play::Play;
use script::lines::Lines;
use std::io::Read;

fn run(rt: &HostRuntime) -> anyhow::Result<()> {
    let mut input = Vec::new(rt.alloc());
    rt.stdin().read_to_end(&mut input)?;
    Play::new(rt)?.run(&mut Lines::new(input.as_slice()))
}

fn main(rt: HostRuntime) -> anyhow::Result<()> {
    run(&rt)
}
