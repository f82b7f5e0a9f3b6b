// How fast a day goes, over and over, in the longest pieces.
use crate::day::Day;
use crate::play::STRIP;
use crate::sum::Sum;
use crate::watched::Watched;
use commands::words::Dialect;
use display::Display;
use display::engine::LONGEST;
use items::walk::count;
use panel::{Panel, PlainPanel};
use sets::Commands;
use std::mem::size_of;
use std::time::{Duration, Instant};
use strip::StripPanel;

// The fastest of so many days counts: what else the machine does only slows a day down.
const DAYS: u32 = 20;

// A tenth of a hundred days, which are about a hundred million bytes.
const TENTH: u32 = 10;

fn per_second(bytes: usize, time: Duration) -> u64 {
    let rate = bytes as u128 * 1_000_000_000 / time.as_nanos().max(1);
    u64::try_from(rate).unwrap_or(u64::MAX)
}

// Bytes per second on the fastest of some days.
fn fastest<F: FnMut(&[u8]) -> anyhow::Result<()>>(
    rt: &HostRuntime,
    day: &[u8],
    days: u32,
    mut live: F,
) -> anyhow::Result<u64>
    requires { F.IsAlwaysCallable live }
{
    let mut best = Duration::MAX;
    for _ in 0..days {
        let start = Instant::now(rt)?;
        live(day)?;
        best = best.min(start.elapsed(rt)?);
    }
    Ok(per_second(day.len(), best))
}

// The panel is painted after every piece, as on a till.
fn feed_day<P: Panel + Drop>(watched: &mut Watched<P>, day: &[u8]) -> anyhow::Result<()> {
    for piece in day.chunks(LONGEST) {
        watched.feed(piece)?;
        watched.display.painted();
    }
    Ok(())
}

// The same for feeding a new display over the panel.
fn feeding<P: Panel + Drop>(rt: &HostRuntime, panel: P, day: &[u8]) -> anyhow::Result<u64> {
    let mut watched = Watched::new(rt.alloc(), panel)?;
    fastest(rt, day, DAYS, |day| feed_day(&mut watched, day))
}

fn panels(rt: &HostRuntime, day: &[u8]) -> anyhow::Result<()> {
    let rate = feeding(rt, PlainPanel::new(), day)?;
    println!(rt; "plain panel: {rate} bytes per second")?;
    let mut changes = STRIP;
    let rate = feeding(rt, StripPanel::over(&mut changes), day)?;
    println!(rt; "strip panel: {rate} bytes per second")?;
    Ok(())
}

fn reading(rt: &HostRuntime, day: &[u8]) -> anyhow::Result<()> {
    let mut items = 0;
    let rate = fastest(rt, day, DAYS, |day| {
        items = count::<Commands>(day, Dialect::EscPos);
        Ok(())
    })?;
    println!(rt; "item reader: {rate} bytes per second, {items} items")?;
    Ok(())
}

// A display runs for years: its last days take no longer than its first.
fn years(rt: &HostRuntime, day: &[u8]) -> anyhow::Result<()> {
    let mut watched = Watched::new(rt.alloc(), PlainPanel::new())?;
    let mut tenth = || fastest(rt, day, TENTH, |day| feed_day(&mut watched, day));
    let first = tenth()?;
    for _ in 0..8 {
        let _ = tenth()?;
    }
    let last = tenth()?;
    println!(rt; "first tenth of a hundred days: {first} bytes per second")?;
    println!(rt; "last tenth of a hundred days: {last} bytes per second")?;
    Ok(())
}

fn about(rt: &HostRuntime, day: &[u8], sales: u32) -> anyhow::Result<()> {
    let mut sum = Sum::default();
    sum.bytes(day);
    let size = day.len();
    println!(rt; "day: {sales} sales, {size} bytes, checksum {sum}")?;
    Ok(())
}

pub fn all(rt: &HostRuntime, day: &Day, sales: u32) -> anyhow::Result<()> {
    let bytes = day.bytes.as_slice();
    about(rt, bytes, sales)?;
    panels(rt, bytes)?;
    reading(rt, bytes)?;
    let size = size_of::<Display<PlainPanel>>();
    println!(rt; "display with a plain panel: {size} bytes")?;
    years(rt, bytes)
}
