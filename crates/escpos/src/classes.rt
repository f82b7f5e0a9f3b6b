// The class of each byte at rest, after ESC and after US.
ghost use Rattle.std.specs.Prelude.{◌≡◌, ℕ, ◌<◌, Some, slice_get};
ghost use Rattle.escpos.specs.declared.classes.Page.{Page};
ghost use Rattle.escpos.specs.Numbers.{class_number};
ghost use Rattle.escpos.specs.Classes.{class_of, place_of};

/// What a byte begins or is, where it is read.
#[derive(Clone, Copy, Debug, PartialEq, Eq)]
pub enum Class {
    // ignored at rest, and a fault after ESC and US
    Ignored = 0,
    Character = 1,
    // a command that is this byte
    OneByte = 2,
    OpensEsc = 3,
    OpensUs = 4,
    // a command that ends with its second byte, this one
    TwoBytes = 5,
    TakesOperands = 6,
}

// The number by which it is told.
impl From<Class> for u8 {
    ghost from_gives = { λ class number. number ≡ class_number class };

    fn from(class: Class) -> u8 {
        class as u8
    }
}

/// The three pages of the table: 256 bytes at rest, after ESC, after US.
#[derive(Clone, Copy, Debug, PartialEq, Eq)]
pub enum Page {
    Resting,
    Esc,
    Us,
}

const NO: Class = Class::Ignored;

const CH: Class = Class::Character;

const C1: Class = Class::OneByte;

const ES: Class = Class::OpensEsc;

const US: Class = Class::OpensUs;

const C2: Class = Class::TwoBytes;

const OP: Class = Class::TakesOperands;

// The pages one after the other.
const CLASSES: &[Class; 768] = &[
    // At rest, 00h to 0Fh.
    NO, NO, NO, NO, NO, NO, NO, NO, C1, C1, C1, C1, C1, C1, NO, NO,
    // At rest, 10h to 1Fh.
    NO, NO, NO, NO, NO, NO, NO, NO, C1, NO, NO, ES, NO, NO, NO, US,
    // At rest, 20h to 2Fh.
    CH, CH, CH, CH, CH, CH, CH, CH, CH, CH, CH, CH, CH, CH, CH, CH,
    // At rest, 30h to 3Fh.
    CH, CH, CH, CH, CH, CH, CH, CH, CH, CH, CH, CH, CH, CH, CH, CH,
    // At rest, 40h to 4Fh.
    CH, CH, CH, CH, CH, CH, CH, CH, CH, CH, CH, CH, CH, CH, CH, CH,
    // At rest, 50h to 5Fh.
    CH, CH, CH, CH, CH, CH, CH, CH, CH, CH, CH, CH, CH, CH, CH, CH,
    // At rest, 60h to 6Fh.
    CH, CH, CH, CH, CH, CH, CH, CH, CH, CH, CH, CH, CH, CH, CH, CH,
    // At rest, 70h to 7Fh.
    CH, CH, CH, CH, CH, CH, CH, CH, CH, CH, CH, CH, CH, CH, CH, CH,
    // At rest, 80h to 8Fh.
    CH, CH, CH, CH, CH, CH, CH, CH, CH, CH, CH, CH, CH, CH, CH, CH,
    // At rest, 90h to 9Fh.
    CH, CH, CH, CH, CH, CH, CH, CH, CH, CH, CH, CH, CH, CH, CH, CH,
    // At rest, A0h to AFh.
    CH, CH, CH, CH, CH, CH, CH, CH, CH, CH, CH, CH, CH, CH, CH, CH,
    // At rest, B0h to BFh.
    CH, CH, CH, CH, CH, CH, CH, CH, CH, CH, CH, CH, CH, CH, CH, CH,
    // At rest, C0h to CFh.
    CH, CH, CH, CH, CH, CH, CH, CH, CH, CH, CH, CH, CH, CH, CH, CH,
    // At rest, D0h to DFh.
    CH, CH, CH, CH, CH, CH, CH, CH, CH, CH, CH, CH, CH, CH, CH, CH,
    // At rest, E0h to EFh.
    CH, CH, CH, CH, CH, CH, CH, CH, CH, CH, CH, CH, CH, CH, CH, CH,
    // At rest, F0h to FFh.
    CH, CH, CH, CH, CH, CH, CH, CH, CH, CH, CH, CH, CH, CH, CH, CH,
    // After ESC, 00h to 0Fh.
    NO, NO, NO, NO, NO, NO, NO, NO, NO, NO, NO, NO, NO, NO, NO, NO,
    // After ESC, 10h to 1Fh.
    NO, NO, NO, NO, NO, NO, NO, NO, NO, NO, NO, NO, NO, NO, NO, NO,
    // After ESC, 20h to 2Fh.
    NO, NO, NO, NO, NO, OP, OP, NO, NO, NO, NO, NO, NO, NO, NO, NO,
    // After ESC, 30h to 3Fh.
    NO, NO, NO, NO, NO, NO, NO, NO, NO, NO, NO, NO, NO, OP, NO, OP,
    // After ESC, 40h to 4Fh.
    C2, NO, NO, NO, NO, NO, NO, NO, NO, NO, NO, NO, NO, NO, NO, NO,
    // After ESC, 50h to 5Fh.
    NO, NO, OP, NO, NO, NO, NO, OP, NO, NO, NO, NO, NO, NO, NO, NO,
    // After ESC, 60h to 6Fh.
    NO, NO, NO, NO, NO, NO, NO, NO, NO, NO, NO, NO, NO, NO, NO, NO,
    // After ESC, 70h to 7Fh.
    NO, NO, NO, NO, OP, NO, NO, NO, NO, NO, NO, NO, NO, NO, NO, NO,
    // After ESC, 80h to 8Fh.
    NO, NO, NO, NO, NO, NO, NO, NO, NO, NO, NO, NO, NO, NO, NO, NO,
    // After ESC, 90h to 9Fh.
    NO, NO, NO, NO, NO, NO, NO, NO, NO, NO, NO, NO, NO, NO, NO, NO,
    // After ESC, A0h to AFh.
    NO, NO, NO, NO, NO, NO, NO, NO, NO, NO, NO, NO, NO, NO, NO, NO,
    // After ESC, B0h to BFh.
    NO, NO, NO, NO, NO, NO, NO, NO, NO, NO, NO, NO, NO, NO, NO, NO,
    // After ESC, C0h to CFh.
    NO, NO, NO, NO, NO, NO, NO, NO, NO, NO, NO, NO, NO, NO, NO, NO,
    // After ESC, D0h to DFh.
    NO, NO, NO, NO, NO, NO, NO, NO, NO, NO, NO, NO, NO, NO, NO, NO,
    // After ESC, E0h to EFh.
    NO, NO, NO, NO, NO, NO, NO, NO, NO, NO, NO, NO, NO, NO, NO, NO,
    // After ESC, F0h to FFh.
    NO, NO, NO, NO, NO, NO, NO, NO, NO, NO, NO, NO, NO, NO, NO, NO,
    // After US, 00h to 0Fh.
    NO, C2, C2, C2, NO, NO, NO, NO, NO, NO, C2, NO, NO, C2, NO, NO,
    // After US, 10h to 1Fh.
    NO, NO, NO, NO, NO, NO, NO, NO, NO, NO, NO, NO, NO, NO, NO, NO,
    // After US, 20h to 2Fh.
    NO, NO, NO, NO, OP, NO, NO, NO, NO, NO, NO, NO, OP, NO, OP, NO,
    // After US, 30h to 3Fh.
    NO, NO, NO, NO, NO, NO, NO, NO, NO, NO, C2, OP, NO, NO, NO, NO,
    // After US, 40h to 4Fh.
    NO, NO, C2, OP, NO, OP, NO, NO, NO, NO, NO, NO, NO, NO, NO, NO,
    // After US, 50h to 5Fh.
    NO, NO, NO, NO, NO, NO, NO, NO, OP, NO, NO, NO, NO, NO, OP, NO,
    // After US, 60h to 6Fh.
    NO, NO, NO, NO, NO, NO, NO, NO, NO, NO, NO, NO, NO, NO, NO, NO,
    // After US, 70h to 7Fh.
    NO, NO, NO, NO, NO, NO, NO, NO, NO, NO, NO, NO, NO, NO, NO, NO,
    // After US, 80h to 8Fh.
    NO, NO, NO, NO, NO, NO, NO, NO, NO, NO, NO, NO, NO, NO, NO, NO,
    // After US, 90h to 9Fh.
    NO, NO, NO, NO, NO, NO, NO, NO, NO, NO, NO, NO, NO, NO, NO, NO,
    // After US, A0h to AFh.
    NO, NO, NO, NO, NO, NO, NO, NO, NO, NO, NO, NO, NO, NO, NO, NO,
    // After US, B0h to BFh.
    NO, NO, NO, NO, NO, NO, NO, NO, NO, NO, NO, NO, NO, NO, NO, NO,
    // After US, C0h to CFh.
    NO, NO, NO, NO, NO, NO, NO, NO, NO, NO, NO, NO, NO, NO, NO, NO,
    // After US, D0h to DFh.
    NO, NO, NO, NO, NO, NO, NO, NO, NO, NO, NO, NO, NO, NO, NO, NO,
    // After US, E0h to EFh.
    NO, NO, NO, NO, NO, NO, NO, NO, NO, NO, NO, NO, NO, NO, NO, NO,
    // After US, F0h to FFh.
    NO, NO, NO, NO, NO, NO, NO, NO, NO, NO, NO, NO, NO, NO, NO, NO,
];

// Where a page's class of a byte stands.
fn place_of(page: Page, byte: u8) -> usize
    ensures place { result ≡ place_of page byte }
    ensures within { result < 768 }
{
    match page {
        Page::Resting => byte as usize,
        Page::Esc => 256 + byte as usize,
        Page::Us => 512 + byte as usize,
    }
}

/// The class of a byte on a page: what the list of commands makes of it there.
pub fn class_of(page: Page, byte: u8) -> Class
    ensures { result ≡ class_of page byte }
{
    CLASSES[place_of(page, byte)]
}

/// How many classes the table has. Each is what the list of commands makes of its byte, which is the theorem named here.
pub fn classes_agree() -> usize
    ensures size { result ≡ 768 }
    ensures agree { (page : Page) (byte : ℕ) → byte < 256 → slice_get CLASSES.now (place_of page byte) ≡ Some (class_of page byte) }
{
    CLASSES.len()
}
