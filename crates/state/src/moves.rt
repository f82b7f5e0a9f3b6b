// Where the cursor goes inside an area, and what is then drawn.
ghost use Rattle.std.specs.Prelude.{◌≡◌};
ghost use Rattle.state.specs.Moves.{goes, draws, rightward, leftward, downward, upward, toward, target};

use commands::words::{Mode, Spot, Way};
use glass::area::{Area, Position};
use glass::stroke::Ink;

// The cursor after a move, and what the move draws.
#[derive(Clone, Copy, Debug, PartialEq, Eq)]
pub struct Move {
    pub at: Position,
    pub ink: Option<Ink>,
}

// The cursor goes to a place, and nothing is drawn. (By two numbers, of which the position is made here alone.)
fn goes(column: u8, row: u8) -> Move
    ensures { result ≡ goes column row }
{
    Move {
        at: Position { column, row },
        ink: None,
    }
}

fn draws(ink: Ink, column: u8, row: u8) -> Move
    ensures { result ≡ draws ink column row }
{
    Move {
        at: Position { column, row },
        ink: Some(ink),
    }
}

fn right(mode: Mode, area: Area, at: Position) -> Move
    ensures { result ≡ rightward mode area at.column at.row }
{
    let Position { column, row } = at;
    match mode {
        _ if column < area.x2 => goes(column + 1, row),
        Mode::Horizontal => draws(Ink::ShiftLeft { row }, column, row),
        _ if row < area.y2 => goes(area.x1, row + 1),
        Mode::Overwrite => goes(area.x1, area.y1),
        Mode::Vertical => draws(Ink::ScrollUp, area.x1, area.y2),
    }
}

fn left(mode: Mode, area: Area, at: Position) -> Move
    ensures { result ≡ leftward mode area at.column at.row }
{
    let Position { column, row } = at;
    match mode {
        _ if column > area.x1 => goes(column - 1, row),
        Mode::Horizontal => draws(Ink::ShiftRight { row }, column, row),
        _ if row > area.y1 => goes(area.x2, row - 1),
        Mode::Overwrite => goes(area.x2, area.y2),
        Mode::Vertical => draws(Ink::ScrollDown, area.x2, area.y1),
    }
}

fn down(mode: Mode, area: Area, at: Position) -> Move
    ensures { result ≡ downward mode area at.column at.row }
{
    let Position { column, row } = at;
    match mode {
        _ if row < area.y2 => goes(column, row + 1),
        Mode::Overwrite => goes(column, area.y1),
        Mode::Vertical => draws(Ink::ScrollUp, column, row),
        Mode::Horizontal => goes(column, row),
    }
}

fn up(mode: Mode, area: Area, at: Position) -> Move
    ensures { result ≡ upward mode area at.column at.row }
{
    let Position { column, row } = at;
    match mode {
        _ if row > area.y1 => goes(column, row - 1),
        Mode::Overwrite => goes(column, area.y2),
        Mode::Vertical => draws(Ink::ScrollDown, column, row),
        Mode::Horizontal => goes(column, row),
    }
}

// One step of the cursor in a mode.
pub(crate) fn toward(way: Way, mode: Mode, area: Area, at: Position) -> Move
    ensures { result ≡ toward way mode area at.column at.row }
{
    match way {
        Way::Left => left(mode, area, at),
        Way::Right => right(mode, area, at),
        Way::Down => down(mode, area, at),
        Way::Up => up(mode, area, at),
    }
}

// Where a jump from a row ends.
pub(crate) fn target(spot: Spot, area: Area, row: u8) -> Position
    ensures { result ≡ target spot area row }
{
    let (column, row) = match spot {
        Spot::Home => (area.x1, area.y1),
        Spot::RowStart => (area.x1, row),
        Spot::RowEnd => (area.x2, row),
        Spot::Corner => (area.x2, area.y2),
    };
    Position { column, row }
}
