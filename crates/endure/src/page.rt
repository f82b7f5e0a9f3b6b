// What a till is about to send.
use arrayvec::ArrayVec;

#[derive(Drop)]
pub struct Page {
    bytes: ArrayVec<u8, 256>,
}

impl Page {
    pub fn new() -> Page {
        Page {
            bytes: ArrayVec::new(),
        }
    }

    pub fn len(&self) -> usize {
        self.bytes.len()
    }

    pub fn clear(&mut self) {
        self.bytes.clear();
    }

    // What finds no place is left out.
    pub fn put(&mut self, bytes: &[u8]) {
        let _ = self.bytes.extend(bytes.iter().copied());
    }

    // Takes the last n bytes off.
    pub fn cut(&mut self, n: usize) {
        let left = self.len().saturating_sub(n);
        self.bytes.truncate(left);
    }

    // Changes the nth byte from the end.
    pub fn spoil(&mut self, n: usize, byte: u8) {
        let at = self.len().saturating_sub(n);
        if let Some(spoilt) = self.bytes.get_mut(at) {
            *spoilt = byte;
        }
    }

    pub fn part(&self, from: usize, to: usize) -> &[u8] {
        self.bytes.as_slice().get(from..to).unwrap_or(&[])
    }
}
