// Phrases: commands of every kind, text and noise, some of them maimed.
ghost use Rattle.std.specs.Prelude.{◌<◌};

use crate::dice::Dice;
use crate::page::Page;
use commands::words::{ESC, US};

#[derive(Drop)]
pub struct Writer {
    pub dice: Dice,
    pub page: Page,
}

impl Writer {
    pub fn new(seed: u64) -> Writer {
        Writer {
            dice: Dice::new(seed),
            page: Page::new(),
        }
    }

    // A code that may be a user character's.
    fn code(&mut self) -> u8 {
        self.dice.between(0x20, 0x5F)
    }

    pub fn text(&mut self) {
        for _ in 0..self.dice.between(1, 24) {
            let code = self.code();
            self.page.put(&[code]);
        }
    }

    pub fn noise(&mut self) {
        for _ in 0..self.dice.between(1, 9) {
            self.page.put(&[self.dice.byte()]);
        }
    }

    // Opens a recording, or closes it.
    pub fn record(&mut self) {
        self.page.put(&[US, b':']);
    }

    // Mostly at a pace that brings the macro round soon.
    pub fn play(&mut self) {
        let n = match self.dice.below(8) {
            0 => self.dice.between(1, 255),
            _ => self.dice.between(1, 2),
        };
        let m = self.dice.one_of(&[0, 0, 1, 2, 255]);
        self.page.put(&[US, b'^', n, m]);
    }

    pub fn select(&mut self) {
        let n = self.dice.one_of(&[0x02, 0x03, 0x32, 0x33]);
        self.page.put(&[ESC, b'=', n]);
    }

    pub fn deselect(&mut self) {
        let n = self.dice.one_of(&[0x01, 0x31]);
        self.page.put(&[ESC, b'=', n]);
    }

    // US $, often outside a window.
    fn go_to(&mut self) {
        let x = self.dice.between(1, 20);
        let y = self.dice.between(1, 2);
        self.page.put(&[US, b'$', x, y]);
    }

    fn window(&mut self, number: u8, s: u8) {
        self.page.put(&[ESC, b'W', number, s]);
    }

    fn area(&mut self) {
        let x1 = self.dice.between(1, 20);
        let y1 = self.dice.between(1, 2);
        let x2 = self.dice.between(x1, 20);
        let y2 = self.dice.between(y1, 2);
        self.page.put(&[x1, y1, x2, y2]);
    }

    // Defined, cancelled, or turned to.
    fn some_window(&mut self) {
        let number = self.dice.between(1, 4);
        let zero = self.dice.one_of(&[0x00, 0x30]);
        match self.dice.below(8) {
            0..=2 => {
                self.window(number, zero | 1);
                self.area();
            }
            3 | 4 => self.window(number, zero),
            5 => self.window(0, zero | 2),
            _ => self.window(number, zero | 2),
        }
    }

    // The columns of a user character, the pair US : often among them.
    fn columns(&mut self) {
        let length = self.dice.between(0, 5);
        self.page.put(&[length]);
        for _ in 0..length {
            let column = self
                .dice
                .one_of(&[0x1F, 0x3A, 0x1F, 0x3A, 0x1B, 0x18, 0x00, 0xFF]);
            self.page.put(&[column]);
        }
    }

    fn characters(&mut self) {
        let count = self.dice.between(1, 3);
        let first = self.code();
        let last = first.saturating_add(count - 1);
        self.page.put(&[ESC, b'&', 0x01, first, last]);
        for _ in 0..count {
            self.columns();
        }
    }

    fn with_us(&mut self) {
        let (second, operand) = match self.dice.below(4) {
            0 => (b'C', self.dice.one_of(&[0x00, 0x01, 0x30, 0x31])),
            1 => (b'E', self.dice.one_of(&[0x00, 0x01, 0x02, 0x05, 0xFF])),
            2 => (b'X', self.dice.between(1, 4)),
            _ => (self.dice.one_of(b".,;"), self.code()),
        };
        self.page.put(&[US, second, operand]);
    }

    fn with_esc(&mut self) {
        let (second, operand) = match self.dice.below(4) {
            0 => (b'%', self.dice.one_of(&[0x00, 0x01, 0x30, 0x31])),
            1 => (b'?', self.code()),
            2 => (b'R', self.dice.between(0, 12)),
            _ => (b't', self.dice.between(0, 8)),
        };
        self.page.put(&[ESC, second, operand]);
    }

    // A whole command, each operand in its range.
    fn command(&mut self) {
        match self.dice.below(40) {
            0..=8 => {
                let byte = self
                    .dice
                    .one_of(&[0x08, 0x09, 0x0A, 0x0B, 0x0C, 0x0D, 0x18]);
                self.page.put(&[byte]);
            }
            9..=13 => {
                let second = self.dice.one_of(&[0x01, 0x02, 0x03, 0x0A, 0x0D, 0x42]);
                self.page.put(&[US, second]);
            }
            14..=17 => self.go_to(),
            18..=25 => self.some_window(),
            26..=28 => self.characters(),
            29..=32 => self.with_us(),
            33..=36 => self.with_esc(),
            37 => self.play(),
            _ => self.rarer(),
        }
    }

    // What would leave little of a life if it came often.
    fn rarer(&mut self) {
        match self.dice.below(8) {
            0 => self.page.put(&[ESC, b'@']),
            1 => self.deselect(),
            2 => self.record(),
            _ => self.select(),
        }
    }

    // A command, text or noise; in one of five cases half of it is missing, or a byte is changed.
    pub fn phrase(&mut self) {
        let before = self.page.len();
        match self.dice.below(16) {
            0..=3 => self.text(),
            4 => self.noise(),
            _ => self.command(),
        }
        let size = self.page.len().saturating_sub(before);
        if size > 0 {
            self.maim(size);
        }
    }

    // Maims the last bytes, now and then.
    fn maim(&mut self, size: usize)
        requires { 0 < size }
    {
        let n = self.dice.below(size) + 1;
        match self.dice.below(10) {
            0 => self.page.cut(n),
            1 => self.page.spoil(n, self.dice.byte()),
            _ => {}
        }
    }
}
