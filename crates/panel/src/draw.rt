// Strokes on any panel, row by row. (The hints on inlining change no proof; with them each ink has a loop compiled for it alone.)
ghost use Rattle.std.specs.Prelude.{◌≡◌, ◌<◌, ◌≤◌, true};
ghost use Rattle.glass.specs.Drawn.{seen, inked, drawn};
ghost use Rattle.panel.specs.Laws.{Drew, Reached};
ghost use Rattle.panel.specs.Steps.{rises, falls, stepped, Rowed, written};

use crate::panel::Panel;
use glass::area::{Area, PLACES, Position, WHOLE};
use glass::stroke::{BLANK, Ink, Stroke};

// What is seen through an area: its cells, and blanks outside it.
#[inline(always)]
fn seen<P: Panel>(panel: &P, area: Area, at: Position) -> u64
    ensures { result ≡ seen area (P.make.cells panel.now) at.column at.row }
{
    if !area.holds(at) {
        return BLANK;
    }
    at.place()
        .and_then(|place| panel.look(place).ok())
        .unwrap_or(BLANK)
}

// What the stroke leaves at a position.
#[inline(always)]
fn inked<P: Panel>(panel: &P, stroke: Stroke, at: Position) -> u64
    requires { (1 ≤ at.column) × ((at.column < 255) × ((1 ≤ at.row) × (at.row < 255))) }
    ensures { result ≡ inked stroke.ink (seen stroke.area (P.make.cells panel.now)) at.column at.row }
{
    let Position { column, row } = at;
    let from = match stroke.ink {
        Ink::Blank => return BLANK,
        Ink::BlankRow { row: only } if row == only => return BLANK,
        Ink::Write { at: only, cell } if at == only => return cell,
        Ink::ShiftLeft { row: only } if row == only => Position {
            column: column + 1,
            row,
        },
        Ink::ShiftRight { row: only } if row == only => Position {
            column: column - 1,
            row,
        },
        Ink::ScrollUp => Position {
            column,
            row: row + 1,
        },
        Ink::ScrollDown => Position {
            column,
            row: row - 1,
        },
        _ => at,
    };
    seen(panel, stroke.area, from)
}

// Draws the stroke at one position.
#[inline(always)]
fn step<P: Panel>(panel: &mut P, stroke: Stroke, at: Position)
    ensures { Drew P.make panel.old (stepped stroke at.column at.row (P.make.cells panel.old)) panel.new }
{
    if !stroke.area.holds(at) {
        return;
    }
    if let Some(place) = at.place() {
        let cell = inked(panel, stroke, at);
        // Never refused: the place is on the glass.
        let _ = panel.put(place, cell);
    }
}

// Draws one row of the stroke, from left to right.
#[inline(always)]
fn row_rightward<P: Panel>(panel: &mut P, stroke: Stroke, row: u8)
    requires { rises stroke.ink ≡ true }
    ensures cells { Rowed stroke row (P.make.cells panel.old) (P.make.cells panel.new) }
    ensures reached { Reached P.make.puts panel.old panel.new }
{
    let Area { x1, x2, .. } = stroke.area;
    for column in x1.max(WHOLE.x1)..x2.min(WHOLE.x2) + 1 {
        step(panel, stroke, Position { column, row });
    }
}

// Draws one row of the stroke, from right to left. (The order is the point: one loop over either order would take a flag, or
// an iterator whose order its contract has to name.)
#[inline(always)]
fn row_leftward<P: Panel>(panel: &mut P, stroke: Stroke, row: u8)
    requires { falls stroke.ink ≡ true }
    ensures cells { Rowed stroke row (P.make.cells panel.old) (P.make.cells panel.new) }
    ensures reached { Reached P.make.puts panel.old panel.new }
{
    let Area { x1, x2, .. } = stroke.area;
    for column in (x1.max(WHOLE.x1)..x2.min(WHOLE.x2) + 1).rev() {
        step(panel, stroke, Position { column, row });
    }
}

// Writes one cell, with nothing to hand over but numbers: the stroke `Write` in any area that holds the position.
#[inline(always)]
pub fn write_cell<P: Panel>(panel: &mut P, at: Position, cell: u64)
    ensures { Drew P.make panel.old (written at.column at.row cell (P.make.cells panel.old)) panel.new }
{
    if let Some(spot) = at.place() {
        let _ = panel.put(spot, cell);
    }
}

// All forty cells, by place.
pub fn cells<P: Panel>(panel: &P) -> [u64; PLACES]
    ensures { result ≡ P.make.cells panel.now }
{
    let mut all = [BLANK; PLACES];
    for (place, cell) in all.iter_mut().enumerate() {
        *cell = panel.look(place).unwrap_or(BLANK);
    }
    all
}

// By puts alone, so that what waited to be painted still waits. (An arm for each ink: the loop in it then asks for no ink again.)
pub fn draw<P: Panel>(panel: &mut P, stroke: Stroke)
    ensures { Drew P.make panel.old (drawn stroke (P.make.cells panel.old)) panel.new }
{
    match stroke.ink {
        Ink::Write { at, .. } => step(panel, stroke, at),
        Ink::BlankRow { row } => row_rightward(panel, stroke, row),
        Ink::ShiftLeft { row } => row_rightward(panel, stroke, row),
        Ink::ShiftRight { row } => row_leftward(panel, stroke, row),
        Ink::Blank => {
            row_rightward(panel, stroke, WHOLE.y1);
            row_rightward(panel, stroke, WHOLE.y2);
        }
        Ink::ScrollUp => {
            row_rightward(panel, stroke, WHOLE.y1);
            row_rightward(panel, stroke, WHOLE.y2);
        }
        // From the last place to the first: a strip panel lists the changes in the order of the puts.
        Ink::ScrollDown => {
            row_leftward(panel, stroke, WHOLE.y2);
            row_leftward(panel, stroke, WHOLE.y1);
        }
    }
}
