// Numbers drawn by a fixed rule: one seed gives the same numbers on every machine. (`bench` draws by another rule, of another
// width; what either prints rests on its own.)
ghost use Rattle.std.specs.Prelude.{◌<◌, ◌≤◌, length};

#[derive(Drop)]
pub struct Dice {
    state: u64,
}

impl Dice {
    pub fn new(seed: u64) -> Dice {
        Dice { state: seed }
    }

    // The upper bits, since the lower ones of such a generator repeat soon.
    fn roll(&mut self) -> u32 {
        self.state = self
            .state
            .wrapping_mul(6364136223846793005)
            .wrapping_add(1442695040888963407);
        (self.state >> 33) as u32
    }

    pub fn byte(&mut self) -> u8 {
        (self.roll() & 0xff) as u8
    }

    pub fn below(&mut self, n: usize) -> usize
        requires { 0 < n }
        ensures { result < n }
    {
        self.roll() as usize % n
    }

    // Both ends may come.
    pub fn between(&mut self, low: u8, high: u8) -> u8
        requires { low ≤ high }
        ensures { (low ≤ result) × (result ≤ high) }
    {
        let more = self.below(usize::from(high - low) + 1);
        low + more as u8
    }

    pub fn one_of(&mut self, choices: &[u8]) -> u8
        requires { 0 < length choices.now }
    {
        choices[self.below(choices.len())]
    }
}
