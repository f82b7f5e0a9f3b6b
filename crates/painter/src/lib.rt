// What a painter asks of a display over a strip panel, and how it paints a screen.
#![tactic(auto)]

ghost use Rattle.std.specs.Prelude.{◌≡◌, length, slice_set};
ghost use Rattle.strip.specs.Strip.{waiting_of};
ghost use Rattle.painter.specs.Held.{HoldsWaiting};
ghost use Rattle.painter.specs.Screen.{ScreenShows, painted_over};

use commands::sets::CommandSets;
use display::engine::Display;
use glass::area::PLACES;
use panel::draw::cells;
use strip::{Change, StripPanel};

// What is still to be painted: how many changes wait, and whether all places are to be painted.
#[derive(Clone, Copy, Debug, PartialEq, Eq)]
pub struct Pending {
    pub count: usize,
    pub all: bool,
}

pub fn waiting<S: CommandSets>(display: &Display<StripPanel<'_>, S>) -> Pending
    ensures count { result.count ≡ length (waiting_of display.now.panel) }
    ensures flag { result.all ≡ display.now.panel.all }
    ensures held { HoldsWaiting S.reads }
    ensures screen { ScreenShows }
{
    let panel = display.panel();
    Pending {
        count: panel.waiting(),
        all: panel.paint_all(),
    }
}

// Paints one change; beside the screen there is no place for it.
#[tactic(auto, using(crate::proofs::Painting::off_screen))]
fn paint_change(screen: &mut [u64; PLACES], change: Change)
    ensures { screen.new ≡ slice_set screen.old change.place change.cell }
{
    if change.place < screen.len() {
        screen[change.place] = change.cell;
    }
}

// Paints on a screen what waits, oldest first, or all places where the panel could not keep every change. To be called before each
// `painted`: the screen then shows the glass, if it was as the panel's picture at first.
#[tactic(auto, using(crate::proofs::Kept::screen_shows))]
pub fn paint(screen: &mut [u64; PLACES], panel: &StripPanel<'_>)
    ensures screen { screen.new ≡ painted_over panel.now screen.old }
    ensures shows { ScreenShows }
{
    if panel.paint_all() {
        *screen = cells(panel);
        return;
    }
    for change in panel.changes() {
        paint_change(screen, *change);
    }
}
