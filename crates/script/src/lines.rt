// The lines of a script (RULES, Script of the program).
ghost use Rattle.std.specs.Prelude.{◌≡◌, ◌+◌, ◌^◌, ◌<◌, length};

pub mod next;

// The lines of the rest of a script; `number` of them were handed out.
#[derive(Drop)]
pub struct Lines<'a> {
    rest: &'a [u8],
    number: usize,
    ghost ok: { number + length rest.now < 2 ^ 64 },
}

impl Lines<'_> {
    // The number of the line that was handed out last, counted from 1.
    pub fn number(&self) -> usize
        ensures { result ≡ self.now.number }
    {
        self.number
    }
}
