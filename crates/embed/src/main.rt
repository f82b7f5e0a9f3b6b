// How a till embeds the display: a sale over a strip panel, painted on a screen of forty cells.
#![tactic(auto)]

use anyhow::Context;
use display::Display;
use display::words::{Answer, Question};
use list::BoundedList;
use painter::paint;
use panel::draw::cells;
use strip::{NO_CHANGE, StripPanel};
use terms::fault::UNUSED;
use terms::settings::Settings;

// Two rows of text, by the codes of the cells.
fn show(rt: &HostRuntime, screen: &[u64; 40]) -> anyhow::Result<()> {
    for row in screen.chunks(20) {
        for cell in row {
            print!(rt; "{}", (cell & 0xff) as u8 as char)?;
        }
        println!(rt; "|")?;
    }
    Ok(())
}

fn run(rt: &HostRuntime) -> anyhow::Result<()> {
    let settings = Settings::check(0, 0, 4).ok().context("no such settings")?;
    let mut fault_places = [UNUSED; 64]; // a feed wants two for each byte of its piece
    let mut faults = BoundedList::over(&mut fault_places);
    let mut change_places = [NO_CHANGE; 16];
    let panel = StripPanel::over(&mut change_places);
    let mut screen = cells(&panel); // blank, as the new panel is
    let mut display = Display::switch_on(settings, panel);
    // As it comes from the till: the first piece ends inside a command, and the third holds a bad one.
    for piece in [
        b"\x0cCOFFEE\x1f$\x11".as_slice(),
        b"\x012.50TOTAL\x1f$\x11\x022.50",
        b"\x1f$\x00\x02",
    ] {
        display.feed(piece, &mut faults).ok().context("refused")?;
        // Due every 10 ms, whether bytes come or not.
        if let Some(fault) = display.tick() {
            let _ = faults.append(fault);
        }
        paint(&mut screen, display.panel());
        display.painted();
    }
    show(rt, &screen)?;
    if let Ok(Answer::Cursor { cursor }) = display.ask(Question::Cursor) {
        println!(rt; "cursor {} {}", cursor.column, cursor.row)?;
    }
    if let Some(fault) = faults.nth(0) {
        println!(rt; "fault {}", fault.report().cause)?;
    }
    // The panel comes back and the display is gone: to feed it from here on does not compile.
    let panel = display.switch_off();
    println!(rt; "off, {} changes wait", panel.waiting())?;
    Ok(())
}

fn main(rt: HostRuntime) -> anyhow::Result<()> {
    run(&rt)
}
