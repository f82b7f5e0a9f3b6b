// Defining, cancelling and turning, and the cursor.
ghost use Rattle.std.specs.Prelude.{◌≡◌, true};
ghost use Rattle.glass.specs.Places.{holds};
ghost use Rattle.state.specs.Slots.{area_of};
ghost use Rattle.state.specs.Layouts.{Turns, layout, new_layout, here, at_spot, turning, cancelling, defining, changing, going, window_area, cursor_of, stepped, jumped};
ghost use Rattle.state.specs.Moves.{toward, target};

use crate::moves::{target, toward};
use crate::slots::{Slots, is_current};
use crate::windows::Windows;
use commands::words::{Mode, Refusal, Slot, Spot, Way, WindowChange};
use glass::area::{Area, Position, WHOLE};
use glass::frame::{Frame, GlassPosition};
use glass::stroke::Ink;

impl Windows {
    pub(crate) fn new() -> Windows
        ensures { layout result ≡ new_layout }
    {
        Windows {
            slots: Slots {
                first: None,
                second: None,
                third: None,
                fourth: None,
            },
            current: None,
            cursor: WHOLE.home(),
        }
    }

    pub(crate) fn here(&self) -> Area
        ensures { result ≡ here (layout self.now) }
    {
        self.slots.area(self.current)
    }

    pub(crate) fn cursor(&self) -> Position
        ensures { result ≡ cursor_of (layout self.now) }
    {
        self.cursor
    }

    pub(crate) fn current(&self) -> Option<Slot>
        ensures { result ≡ (layout self.now).current }
    {
        self.current
    }

    // The area of window n, counted from 0: the whole glass, a defined one, or none.
    pub(crate) fn window(&self, n: u8) -> Option<Area>
        ensures { result ≡ window_area (layout self.now).slots n }
    {
        match (n, Slot::try_from(n)) {
            (0, _) => Some(WHOLE),
            (_, Ok(slot)) => self.slots.at(slot),
            _ => None,
        }
    }

    // The cursor goes to a place of the current window.
    fn go(&mut self, at: Position)
        requires { holds (here (layout self.old)) at.column at.row ≡ true }
        ensures { layout self.new ≡ at_spot (layout self.old) at.column at.row }
    {
        self.cursor = at;
    }

    // One step of the cursor, and what it draws.
    pub(crate) fn step(&mut self, way: Way, mode: Mode) -> Option<Ink>
        ensures ink { result ≡ (toward way mode (here (layout self.old)) self.old.cursor.column self.old.cursor.row).ink }
        ensures left { layout self.new ≡ stepped way mode (layout self.old) }
    {
        let next = toward(way, mode, self.here(), self.cursor);
        self.go(next.at);
        next.ink
    }

    pub(crate) fn jump(&mut self, spot: Spot)
        ensures { layout self.new ≡ jumped spot (layout self.old) }
    {
        self.go(target(spot, self.here(), self.cursor.row));
    }

    // The column and the row are counted from the window's corner.
    pub(crate) fn go_to(&mut self, to: GlassPosition) -> Result<(), Refusal>
        ensures { Turns (going to (layout self.old)) result (layout self.new) }
    {
        let area = self.here();
        let at = Position {
            column: area.x1 + to.at.column - 1,
            row: area.y1 + to.at.row - 1,
        };
        if !area.holds(at) {
            return Err(Refusal::OutsideWindow);
        }
        self.go(at);
        Ok(())
    }

    pub(crate) fn change(&mut self, change: WindowChange) -> Result<(), Refusal>
        ensures { Turns (changing change (layout self.old)) result (layout self.new) }
    {
        match change {
            WindowChange::Define { slot, frame } => self.define(slot, frame),
            WindowChange::Cancel { slot } => self.cancel(slot),
            WindowChange::TurnTo { window } => self.turn(window),
        }
    }

    fn turn(&mut self, window: Option<Slot>) -> Result<(), Refusal>
        ensures { Turns (turning window (layout self.old)) result (layout self.new) }
    {
        if !self.slots.know(window) {
            return Err(Refusal::WindowUndefined);
        }
        self.current = window;
        self.cursor = self.slots.area(window).home();
        Ok(())
    }

    fn cancel(&mut self, n: Slot) -> Result<(), Refusal>
        ensures { Turns (cancelling n (layout self.old)) result (layout self.new) }
    {
        if self.slots.at(n).is_none() {
            return Err(Refusal::WindowUndefined);
        }
        if is_current(self.current, n) {
            self.current = None;
            self.cursor = WHOLE.home();
        }
        self.slots = self.slots.with(n, None);
        Ok(())
    }

    fn define(&mut self, n: Slot, frame: Frame) -> Result<(), Refusal>
        ensures { Turns (defining n frame.area (layout self.old)) result (layout self.new) }
    {
        let area = frame.area;
        if self.slots.at(n).is_some() {
            return Err(Refusal::WindowDefined);
        }
        if !self.slots.leave_clear(area) {
            return Err(Refusal::WindowTouches);
        }
        self.slots = self.slots.with(n, Some(area));
        self.current = Some(n);
        self.cursor = area.home();
        Ok(())
    }
}
