// A script is handed out line by line. A line is the bytes up to LF; what follows the last LF is one too, unless it is
// empty.
ghost use Rattle.std.specs.Prelude.{◌≡◌, ◌+◌, length, take, drop};
ghost use Rattle.std.specs.Iterator.{at_most};
ghost use Rattle.script.specs.Rows.{line_size, NextLine, LinesJoin};

use crate::lines::Lines;

// The bytes before the first LF, and those after it.
fn cut(bytes: &[u8]) -> (&[u8], &[u8])
    ensures line { result.0.now ≡ take (line_size bytes.now) bytes.now }
    ensures rest { result.1.now ≡ drop (line_size bytes.now + 1) bytes.now }
{
    match bytes.iter().position(|byte| *byte == b'\n') {
        Some(end) => (&bytes[..end], &bytes[end + 1..]),
        None => (bytes, &[]),
    }
}

impl<'a> Lines<'a> {
    pub fn new(input: &'a [u8]) -> Lines<'a>
        ensures { (result.rest.now ≡ input.now) × (result.number ≡ 0) }
    {
        Lines {
            rest: input,
            number: 0,
        }
    }
}

// The next line without its LF; `None` at the end.
impl<'a> Iterator for Lines<'a> {
    type Item = &'a [u8];

    ghost next_gives = { λ s r t. NextLine s r t × LinesJoin };

    ghost remaining = { λ s. at_most (length s.rest.now) };

    #[tactic(auto, using(crate::proofs::Steps::lines_join))]
    fn next(&mut self) -> Option<&'a [u8]> {
        if self.rest.is_empty() {
            return None;
        }
        let (line, rest) = cut(self.rest);
        self.rest = rest;
        self.number += 1;
        Some(line)
    }
}
