// A checksum of numbers: FNV-1a over 64 bits, by whole numbers in place of bytes. (`bench` sums bytes; a crate for both would
// hold ten lines.)
#[derive(Drop)]
pub struct Sum {
    pub code: u64,
}

impl Default for Sum {
    fn default() -> Sum {
        Sum {
            code: 0xCBF2_9CE4_8422_2325,
        }
    }
}

impl Sum {
    // Each number changes the checksum, and so does their order.
    pub fn add<T: Copy>(&mut self, numbers: &[T])
    where
        u64: From<T>,
    {
        self.code = numbers.iter().fold(self.code, |code, number| {
            (code ^ u64::from(*number)).wrapping_mul(0x0000_0100_0000_01B3)
        });
    }
}
