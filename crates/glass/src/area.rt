// Rectangles of the glass. Columns count from 1 to 20, rows from 1 to 2.
ghost use Rattle.std.specs.Prelude.{◌≡◌};
ghost use Rattle.glass.specs.Places.{holds, lawful, apart, place_at};

// How many places a row of the glass has, and the whole glass.
pub const COLUMNS: usize = 20;

pub const PLACES: usize = 40;

// A column and a row of the glass, or beside it.
#[derive(Clone, Copy, Debug, PartialEq, Eq)]
pub struct Position {
    pub column: u8,
    pub row: u8,
}

impl Position {
    // The place of a position, if it is on the glass.
    #[inline(always)]
    pub fn place(self) -> Option<usize>
        ensures { result ≡ place_at self.column self.row }
    {
        if WHOLE.holds(self) {
            Some(COLUMNS * (self.row as usize - 1) + (self.column as usize - 1))
        } else {
            None
        }
    }
}

// Columns x1 to x2 and rows y1 to y2. Any four numbers make one: what lies off the glass holds no place.
#[derive(Clone, Copy, Debug, PartialEq, Eq)]
pub struct Area {
    pub x1: u8,
    pub y1: u8,
    pub x2: u8,
    pub y2: u8,
}

pub const WHOLE: Area = Area {
    x1: 1,
    y1: 1,
    x2: 20,
    y2: 2,
};

impl Area {
    #[inline(always)]
    pub fn holds(self, at: Position) -> bool
        ensures { result ≡ holds self at.column at.row }
    {
        (self.x1..=self.x2).contains(&at.column) && (self.y1..=self.y2).contains(&at.row)
    }

    // Its first column and row.
    pub fn home(self) -> Position
        ensures { result ≡ record { column = self.x1; row = self.y1 } }
    {
        Position {
            column: self.x1,
            row: self.y1,
        }
    }

    // Whether it lies on the glass and has a place.
    pub fn is_lawful(self) -> bool
        ensures { result ≡ lawful self }
    {
        1 <= self.x1
            && self.x1 <= self.x2
            && self.x2 <= 20
            && 1 <= self.y1
            && self.y1 <= self.y2
            && self.y2 <= 2
    }

    // Whether the two share no place.
    pub fn is_apart(self, other: Area) -> bool
        ensures { result ≡ apart self other }
    {
        self.x2 < other.x1 || other.x2 < self.x1 || self.y2 < other.y1 || other.y2 < self.y1
    }
}
