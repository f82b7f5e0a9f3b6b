// A till's day by a fixed rule: the same bytes and ticks on every machine. bench/day.py has the same rule.
ghost use Rattle.std.specs.Prelude.{◌<◌};

use std::alloc::{AllocError, Global};

// The till waits after the bytes before `end`.
#[derive(Clone, Copy)]
pub struct Pause {
    pub end: usize,
    pub ticks: u32,
}

#[derive(Drop)]
pub struct Day {
    pub bytes: Vec<u8>,
    pub pauses: Vec<Pause>,
}

// A linear congruential generator, whose upper bits are used. (`endure` has another, which its output rests on.)
#[derive(Drop)]
struct Dice {
    state: u32,
}

impl Dice {
    fn below(&mut self, n: u32) -> u32
        requires { 0 < n }
        ensures { result < n }
    {
        self.state = self
            .state
            .wrapping_mul(1_664_525)
            .wrapping_add(1_013_904_223);
        (self.state >> 16) % n
    }
}

// The display is made new, and its cursor shown.
const BEGIN: &[u8] = b"\x1B@\x1FC\x01";

const CLEAR: &[u8] = b"\x0C";

const TO_PRICE: &[u8] = b"\x1F$\x10\x01";

const TO_TOTAL: &[u8] = b"\x1F$\x01\x02TOTAL       \x1F$\x0F\x02";

const POINT: &[u8] = b"\x1F.";

const MESSAGE: &[u8] = b"THANK YOU FOR SHOPPING WITH US TODAY, COME AGAIN SOON";

const OVERWRITE: &[u8] = b"\x1F\x01";

const VERTICAL: &[u8] = b"\x1F\x02";

const HORIZONTAL: &[u8] = b"\x1F\x03";

// A macro is recorded, with an operand out of range in it; the lamp blinks, and the macro is played.
const MACRO: &[u8] = b"\x1F:\x0CNEXT\x1F$\x01\x02PLEASE\x1FX\x05\x1F:\x1FE\x05\x1F^\x01\x04";

// Ticks while a macro plays, and while nothing happens.
const LONG: u32 = 400;

const BRIEF: u32 = 40;

// Names of fourteen characters.
const NAMES: [&[u8]; 8] = [
    b"MILK 1L       ",
    b"BREAD         ",
    b"EGGS x12      ",
    b"COFFEE 500G   ",
    b"APPLES KG     ",
    b"BUTTER        ",
    b"TEA           ",
    b"SOAP          ",
];

// Commands that give a fault: unknown, with an operand out of range, and for a window that is not defined.
const SLIPS: [&[u8]; 4] = [b"\x1Bz", b"\x1F$\x15\x01", b"\x1FX\x05", b"\x1BW\x01\x02"];

fn digit(cents: u32, unit: u32) -> u8
    requires { 0 < unit }
{
    if cents < unit && unit > 100 {
        b' '
    } else {
        b'0' + (cents / unit % 10) as u8
    }
}

impl Day {
    pub fn of(heap: Global, sales: u32) -> Result<Day, AllocError> {
        let mut day = Day {
            bytes: Vec::new(heap),
            pauses: Vec::new(heap),
        };
        let mut dice = Dice { state: 1 };
        day.say(BEGIN)?;
        for _ in 0..sales {
            day.sale(&mut dice)?;
            day.extra(&mut dice)?;
        }
        day.wait(BRIEF)?;
        Ok(day)
    }

    fn say(&mut self, bytes: &[u8]) -> Result<(), AllocError> {
        self.bytes.extend_from_slice(bytes)
    }

    fn wait(&mut self, ticks: u32) -> Result<(), AllocError> {
        let end = self.bytes.len();
        self.pauses.push(Pause { end, ticks })?;
        Ok(())
    }

    // The item and its price on the first row, the total on the second.
    fn sale(&mut self, dice: &mut Dice) -> Result<(), AllocError> {
        self.say(CLEAR)?;
        self.say(NAMES[dice.below(8) as usize])?;
        self.say(TO_PRICE)?;
        self.amount(dice.below(20_000), 10_000)?;
        self.say(TO_TOTAL)?;
        self.amount(dice.below(60_000), 100_000)
    }

    // The digits of an amount from a unit down, with a point at the hundreds; blanks for zeros before them.
    fn amount(&mut self, cents: u32, highest: u32) -> Result<(), AllocError> {
        for unit in [100_000, 10_000, 1_000, 100, 10, 1] {
            if unit == 100 {
                self.say(POINT)?;
            }
            if unit <= highest {
                self.say(&[digit(cents, unit)])?;
            }
        }
        Ok(())
    }

    // Now and then a message that rises or runs, a slip, a macro that plays, or a while without a sale.
    fn extra(&mut self, dice: &mut Dice) -> Result<(), AllocError> {
        match dice.below(64) {
            0..=1 => self.message(VERTICAL),
            2..=3 => self.message(HORIZONTAL),
            4 => self.say(SLIPS[dice.below(4) as usize]),
            5 => {
                self.say(MACRO)?;
                self.wait(LONG)
            }
            6 => self.wait(BRIEF),
            _ => Ok(()),
        }
    }

    fn message(&mut self, mode: &[u8]) -> Result<(), AllocError> {
        self.say(CLEAR)?;
        self.say(mode)?;
        self.say(MESSAGE)?;
        self.say(OVERWRITE)
    }
}
