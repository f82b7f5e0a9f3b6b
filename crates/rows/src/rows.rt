// A panel that keeps its cells by row and counts the puts that it accepted.
ghost use Rattle.std.specs.Prelude.{◌≡◌, ◌++◌, length, replicate};

pub mod cells;

#[derive(Drop)]
pub struct RowsPanel {
    upper: [u64; 20],
    lower: [u64; 20],
    puts: u64,
    ghost twenty: { (length upper ≡ 20) × (length lower ≡ 20) },
}

impl RowsPanel {
    // Blank everywhere, with nothing counted.
    pub fn new() -> RowsPanel
        ensures cells { result.upper ++ result.lower ≡ replicate 40 32 }
        ensures count { result.puts ≡ 0 }
    {
        RowsPanel {
            upper: [32; 20],
            lower: [32; 20],
            puts: 0,
        }
    }

    // How many puts were accepted. A count of u64::MAX stays there.
    pub fn puts(&self) -> u64
        ensures { result ≡ self.now.puts }
    {
        self.puts
    }
}
