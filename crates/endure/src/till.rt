// A till that says whatever comes to its mind, in pieces, with pauses.
use crate::writer::Writer;
use history::recall::recall_bytes;

#[derive(Drop)]
pub struct Till {
    writer: Writer,
    // how much of the page was sent
    sent: usize,
    // the ticks after the page
    pause: usize,
    // whether the page is a recall
    recall: bool,
    // the events that are still to come
    left: usize,
}

// A piece, and the ticks after it.
#[derive(Clone, Copy)]
pub struct Turn<'a> {
    pub piece: &'a [u8],
    pub ticks: usize,
    // whether the piece is the last of a recall
    pub recalled: bool,
}

impl Till {
    pub fn new(seed: u64, events: usize) -> Till {
        Till {
            writer: Writer::new(seed),
            sent: 0,
            pause: 0,
            recall: false,
            left: events,
        }
    }

    fn phrases(&mut self, count: usize) {
        for _ in 0..count {
            self.writer.phrase();
        }
    }

    // It may be too long, and its end may go to a half phrase.
    fn recording(&mut self) {
        let most = self.writer.dice.below(78);
        self.writer.record();
        for _ in 0..most {
            if self.writer.page.len() > most {
                break;
            }
            self.writer.phrase();
        }
        self.writer.record();
    }

    // The macro gets time to come round, or is cut short.
    fn play(&mut self) {
        self.writer.play();
        self.pause = self.writer.dice.below(160);
    }

    // Phrases for another device.
    fn aside(&mut self) {
        self.writer.deselect();
        let count = self.writer.dice.below(8);
        self.phrases(count);
        self.writer.select();
    }

    fn say_recall(&mut self) {
        self.writer.page.put(recall_bytes());
        self.recall = true;
    }

    // A new page.
    fn scene(&mut self) {
        self.writer.page.clear();
        self.sent = 0;
        self.recall = false;
        self.pause = self.writer.dice.below(6);
        match self.writer.dice.below(64) {
            0 => self.say_recall(),
            1..=29 => {
                let count = self.writer.dice.below(20);
                self.phrases(count);
            }
            30..=44 => {
                self.recording();
                self.play();
            }
            45..=49 => self.recording(),
            50..=52 => {
                self.writer.record();
                self.phrases(3);
            }
            53..=59 => self.play(),
            _ => self.aside(),
        }
    }

    // As many events as are wanted, or as are left.
    fn spend(&mut self, wanted: usize) -> usize {
        let spent = wanted.min(self.left);
        self.left -= spent;
        spent
    }

    // How much of the page is sent at once.
    fn size(&mut self) -> usize {
        let size = match self.writer.dice.below(8) {
            0 => 1,
            1 | 2 => self.writer.dice.between(1, 8),
            _ => self.writer.dice.between(1, 96),
        };
        usize::from(size)
    }

    fn short_pause(&mut self) -> usize {
        match self.writer.dice.below(4) {
            0 => self.writer.dice.below(4),
            _ => 0,
        }
    }

    // The next piece, of at most 96 bytes, and the ticks after it; none where all events are spent.
    pub fn turn(&mut self) -> Option<Turn<'_>> {
        if self.left == 0 {
            return None;
        }
        if self.sent >= self.writer.page.len() {
            self.scene();
        }
        let end = self.writer.page.len();
        let from = self.sent;
        let size = self.size().min(end.saturating_sub(from));
        let to = from.saturating_add(self.spend(size));
        self.sent = to;
        let pause = if to < end {
            self.short_pause()
        } else {
            self.pause
        };
        Some(Turn {
            ticks: self.spend(pause),
            recalled: self.recall && to >= end,
            piece: self.writer.page.part(from, to),
        })
    }
}
