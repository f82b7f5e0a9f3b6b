// A checksum of what was seen: FNV-1a over 64 bits. (`endure` sums whole numbers; a crate for both would hold ten lines.)
use std::fmt;

#[derive(Clone, Copy)]
pub struct Sum {
    code: u64,
}

impl Default for Sum {
    fn default() -> Sum {
        Sum {
            code: 0xCBF2_9CE4_8422_2325,
        }
    }
}

impl Sum {
    pub fn bytes(&mut self, bytes: &[u8]) {
        self.code = bytes.iter().fold(self.code, |code, byte| {
            (code ^ u64::from(*byte)).wrapping_mul(0x100_0000_01B3)
        });
    }
}

impl fmt::Display for Sum {
    fn fmt<W: fmt::Write>(&self, f: &mut fmt::Formatter<W>) -> fmt::Result {
        write!(f, "{:016x}", self.code)
    }
}
