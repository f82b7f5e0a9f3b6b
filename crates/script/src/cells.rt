// A cell taken apart (RULES, Cells), and the signs that stand for it in a picture.
ghost use Rattle.std.specs.Prelude.{◌≡◌, ◌+◌, ◌*◌, ◌^◌, ◌<◌};
ghost use Rattle.script.specs.Signs.{mark_of, parts_of, glyph_of, sign_of, PartsTell};

use commands::words::Mark;

#[derive(Clone, Copy, Debug, PartialEq, Eq)]
pub struct CellParts {
    pub code: u8,
    pub table: u8,
    pub set: u8,
    pub mark: Option<Mark>,
    // A user character: then the three bytes are its first columns.
    pub user: bool,
}

fn read_mark(cell: u64) -> Option<Mark>
    ensures { result ≡ mark_of cell }
{
    Mark::try_from((cell / 0x100_0000_0000 % 4) as u8).ok()
}

pub fn parts(cell: u64) -> CellParts
    ensures value { result ≡ parts_of cell }
    ensures always { PartsTell }
{
    CellParts {
        code: (cell % 256) as u8,
        table: (cell / 0x100 % 256) as u8,
        set: (cell / 0x1_0000 % 256) as u8,
        mark: read_mark(cell),
        user: cell / 0x400_0000_0000 % 2 == 1,
    }
}

// A built-in character of ASCII stands for itself, every other one is an empty box, and a user character a shade.
pub fn glyph(cell: u64) -> char
    ensures { result ≡ glyph_of cell }
{
    match parts(cell) {
        CellParts { user: true, .. } => '▒',
        CellParts {
            code: code @ 0x20..=0x7E,
            ..
        } => code as char,
        _ => '□',
    }
}

// The mark as it is written, or a blank.
pub fn sign(cell: u64) -> char
    ensures { result ≡ sign_of cell }
{
    parts(cell).mark.map_or(' ', char::from)
}
