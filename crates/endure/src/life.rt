// One life of displays side by side.
//
// The first display gets the pieces as they come. The second one, over a panel that may overflow, gets the same bytes in other
// pieces. Both are told at moments of their own that they were painted. The third one is new since the last recall. After every
// piece, and after the ticks that follow it, all three must answer every question alike, each cell of the glass among them, and
// must have given the same faults since the comparison before.
use crate::dice::Dice;
use crate::tally::Tally;
use crate::till::Turn;
use crate::watched::Watched;
use display::Display;
use display::words::{Answer, Question};
use panel::PlainPanel;
use std::alloc::{AllocError, Global};
use strip::StripPanel;
use terms::settings::Settings;

#[derive(Drop)]
pub struct Life<'a> {
    settings: Settings,
    first: Watched<PlainPanel>,
    second: Watched<StripPanel<'a>>,
    young: Watched<PlainPanel>,
    // how the second display's pieces are cut, and when a panel is painted
    knife: Dice,
    pub tally: Tally,
}

fn new_display(settings: Settings) -> Display<PlainPanel> {
    Display::switch_on(settings, PlainPanel::new())
}

impl<'a> Life<'a> {
    pub fn new(
        heap: Global,
        settings: Settings,
        seed: u64,
        strip: StripPanel<'a>,
    ) -> Result<Life<'a>, AllocError> {
        Ok(Life {
            settings,
            first: Watched::new(heap, new_display(settings))?,
            second: Watched::new(heap, Display::switch_on(settings, strip))?,
            young: Watched::new(heap, new_display(settings))?,
            knife: Dice::new(seed),
            tally: Tally::default(),
        })
    }

    // A piece, and then ticks.
    pub fn turn(&mut self, rt: &HostRuntime, turn: Turn<'_>) -> anyhow::Result<()> {
        self.feed(turn.piece)?;
        if turn.recalled {
            self.renew();
        }
        self.compare(rt)?;
        if turn.ticks > 0 {
            self.tick(turn.ticks)?;
            self.compare(rt)?;
        }
        Ok(())
    }

    fn feed(&mut self, piece: &[u8]) -> anyhow::Result<()> {
        self.count_piece(piece.len());
        self.first.feed(piece)?;
        self.young.feed(piece)?;
        self.feed_cut(piece)?;
        if self.knife.below(5) == 0 {
            self.first.display.painted();
            self.tally.first_paintings += 1;
        }
        Ok(())
    }

    fn count_piece(&mut self, size: usize) {
        self.tally.pieces += 1;
        self.tally.bytes += size as u64;
        if size > 0 && self.is_playing() {
            self.tally.endings += 1;
        }
    }

    fn is_playing(&self) -> bool {
        matches!(
            self.first.display.ask(Question::Modes),
            Ok(Answer::Modes { modes }) if modes.playing
        )
    }

    // In parts of a drawn size, from single bytes on.
    fn feed_cut(&mut self, piece: &[u8]) -> anyhow::Result<()> {
        let size = usize::from(self.knife.between(1, 32));
        for part in piece.chunks(size) {
            self.second.feed(part)?;
            if self.knife.below(4) == 0 {
                self.paint();
            }
        }
        Ok(())
    }

    fn paint(&mut self) {
        self.tally.second_paintings += 1;
        if self.second.display.panel().paint_all() {
            self.tally.whole_paintings += 1;
        }
        self.second.display.painted();
    }

    // After a recall nothing of the past can be seen: from here on a new display lives along.
    fn renew(&mut self) {
        self.young.display = new_display(self.settings);
        self.tally.recalls += 1;
    }

    fn tick(&mut self, ticks: usize) -> Result<(), AllocError> {
        self.tally.ticks += ticks as u64;
        for _ in 0..ticks {
            self.first.tick()?;
            self.second.tick()?;
            self.young.tick()?;
        }
        Ok(())
    }

    fn compare(&mut self, rt: &HostRuntime) -> anyhow::Result<()> {
        if !self.first.is_like(&self.second) {
            self.differ(rt, "second")?;
        }
        if !self.first.is_like(&self.young) {
            self.differ(rt, "new")?;
        }
        self.count();
        self.first.forget();
        self.second.forget();
        self.young.forget();
        Ok(())
    }

    // The first ten differences are told, and all are counted.
    fn differ(&mut self, rt: &HostRuntime, other: &str) -> anyhow::Result<()> {
        self.tally.differences += 1;
        if self.tally.differences.0 <= 10 {
            let bytes = self.tally.bytes.0;
            let ticks = self.tally.ticks.0;
            println!(rt; "after {bytes} bytes and {ticks} ticks the {other} display differs")?;
        }
        Ok(())
    }

    fn count(&mut self) {
        for fault in self.first.faults() {
            self.tally.count(*fault);
        }
        self.tally.see(&self.first.display);
    }
}
