// The columns of a user character while they are read.
ghost use Rattle.std.specs.Prelude.{◌≡◌, true, ◌&&◌, nat_le, nat_lt};

/// The columns of a user character of which one or more are still to come: `size` in all, at most 5, and `at` of them read.
#[derive(Clone, Copy, Debug, PartialEq, Eq)]
pub struct Columns {
    pub columns: [u8; 5],
    pub at: u8,
    pub size: u8,
    ghost fits: { (nat_lt at size && nat_le size 5) ≡ true },
}
