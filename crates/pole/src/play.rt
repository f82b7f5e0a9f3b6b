// The lines of a script: those before a display is on, and those while one is on.
ghost use Rattle.std.specs.Prelude.{◌<◌, length, IfSome};
ghost use Rattle.pole.specs.Left.{NoMore};

use crate::answers::{Glass, Told, ToldFault};
use crate::life::{Life, Made};
use crate::show::Picture;
use commands::words::Dialect;
use display::Display;
use display::engine::LONGEST;
use display::words::Question;
use history::replay::Happening;
use items::walk::walk;
use list::BoundedList;
use painter::Pending;
use panel::draw::cells;
use panel::{Panel, PlainPanel};
use requests::parse::request;
use requests::requests::{Make, Mistake, Request};
use script::lines::Lines;
use script::words::{after_first, hex_bytes, words};
use sets::Commands;
use strip::{NO_CHANGE, StripPanel};
use terms::fault::{Fault, UNUSED};
use terms::settings::Settings;

// The fault places of a feed, unless `room` says fewer: enough for the longest piece.
const MOST_PLACES: usize = 2 * LONGEST;

// The places that a feed lends, and how many of them.
#[derive(Drop)]
pub struct Play<'r> {
    rt: &'r HostRuntime,
    places: Vec<Fault>,
    room: usize,
}

// A line of the script, by its number, and its words. (They are lent, and no vector of its own: a line is then read at once
// from where it was written.)
#[derive(Clone, Copy)]
struct Line<'b, 'a> {
    number: usize,
    text: &'a [u8],
    words: &'b [&'a [u8]],
}

impl<'b, 'a> Line<'b, 'a> {
    // The line that was handed out last.
    fn of(lines: &Lines<'a>, text: &'a [u8], words: &'b [&'a [u8]]) -> Line<'b, 'a> {
        Line {
            number: lines.number(),
            text,
            words,
        }
    }

    fn request(&self) -> Result<Request, Mistake> {
        request(self.words)
    }

    // The words after the first.
    fn operands(&self) -> &'b [&'a [u8]] {
        match self.words {
            [_, operands @ ..] => operands,
            [] => &[],
        }
    }
}

// The next line of a script.
fn next_line<'a>(lines: &mut Lines<'a>) -> Option<&'a [u8]>
    ensures less { IfSome result (λ _. length lines.new.rest.now < length lines.old.rest.now) }
    ensures no_more { NoMore lines.old lines.new }
{
    lines.next()
}

impl<'r> Play<'r> {
    pub fn new(rt: &'r HostRuntime) -> anyhow::Result<Play<'r>> {
        Ok(Play {
            rt,
            places: vec![in rt.alloc(); UNUSED; MOST_PLACES]?,
            room: MOST_PLACES,
        })
    }

    // Every line is answered; a display that is still on at the end is switched off silently.
    pub fn run(&mut self, lines: &mut Lines<'_>) -> anyhow::Result<()> {
        while let Some(text) = next_line(lines) {
            let words = words(self.rt.alloc(), text)?;
            let line = Line::of(lines, text, words.as_slice());
            match line.request() {
                Ok(
                    Request::On {
                        set,
                        table,
                        brightness,
                        make,
                    },
                ) => match Settings::check(set, table, brightness) {
                    Ok(settings) => self.switch_on(lines, settings, make)?,
                    Err(refusal) => self.refused(u8::from(refusal))?,
                },
                Ok(request) => if !self.answer(&line, request)? {
                    self.error(&line, Mistake::DisplayOff)?;
                },
                Err(mistake) => self.error(&line, mistake)?,
            }
        }
        Ok(())
    }

    fn error(&self, line: &Line<'_, '_>, mistake: Mistake) -> anyhow::Result<()> {
        println!(self.rt; "error {}: {mistake}", line.number)?;
        Ok(())
    }

    fn refused(&self, number: u8) -> anyhow::Result<()> {
        println!(self.rt; "refused {number}")?;
        Ok(())
    }

    // What needs no display; false for all else.
    fn answer(&mut self, line: &Line<'_, '_>, request: Request) -> anyhow::Result<bool> {
        match request {
            Request::Nothing => {}
            Request::Room { places } => {
                self.room = places as usize;
                println!(self.rt; "room {places}")?;
            }
            Request::Items => self.items(line)?,
            _ => return Ok(false),
        }
        Ok(true)
    }

    fn items(&self, line: &Line<'_, '_>) -> anyhow::Result<()> {
        let heap = self.rt.alloc();
        let Some(bytes) = hex_bytes(heap, line.operands())? else {
            return self.error(line, Mistake::NoByte);
        };
        for part in walk::<Commands>(heap, bytes.as_slice(), Dialect::EscPos)?.iter() {
            let place = part.place;
            let length = part.bytes.len();
            let kind = u8::from(part.kind);
            println!(self.rt; "item {place} {length} {kind}")?;
        }
        println!(self.rt; "end")?;
        Ok(())
    }

    // A strip panel lies in places that are lent until its display is off.
    fn switch_on(
        &mut self,
        lines: &mut Lines<'_>,
        settings: Settings,
        make: Make,
    ) -> anyhow::Result<()>
        ensures { NoMore lines.old lines.new }
    {
        match make {
            Make::Plain => self.play(lines, settings, PlainPanel::new()),
            Make::Strip { places } => {
                let mut changes = vec![in self.rt.alloc(); NO_CHANGE; places as usize]?;
                self.play(lines, settings, StripPanel::over(changes.as_mut_slice()))
            }
        }
    }

    // The lines while a display is on, over a panel of any make.
    fn play<P: Made>(
        &mut self,
        lines: &mut Lines<'_>,
        settings: Settings,
        panel: P,
    ) -> anyhow::Result<()>
        ensures { NoMore lines.old lines.new }
    {
        let mut life = Life::switch_on(self.rt.alloc(), settings, panel);
        println!(self.rt; "on")?;
        while let Some(text) = next_line(lines) {
            let words = words(self.rt.alloc(), text)?;
            let line = Line::of(lines, text, words.as_slice());
            match line.request() {
                Ok(Request::Off) => {
                    println!(self.rt; "off")?;
                    break;
                }
                Ok(request) => if !self.answer(&line, request)? {
                    self.say(&mut life, &line, request)?;
                },
                Err(mistake) => self.error(&line, mistake)?,
            }
        }
        let _panel = life.display.switch_off();
        Ok(())
    }

    fn say<P: Made>(
        &mut self,
        life: &mut Life<P>,
        line: &Line<'_, '_>,
        request: Request,
    ) -> anyhow::Result<()> {
        match request {
            Request::Feed => self.feed_words(life, line),
            Request::Text => self.feed(life, after_first(line.text)),
            Request::Tick { count } => self.tick(life, count),
            Request::Painted => {
                life.display.painted();
                println!(self.rt; "painted")?;
                Ok(())
            }
            Request::Waiting => self.waiting(life, line),
            Request::Replay => self.replay(life),
            Request::Glass => {
                println!(self.rt; "{}", Glass(cells(life.display.panel())))?;
                Ok(())
            }
            Request::Show => {
                println!(self.rt; "{}", Picture(&life.display))?;
                Ok(())
            }
            _ => match question(request) {
                Some(question) => self.ask(&life.display, question),
                None => self.error(line, Mistake::DisplayOn),
            },
        }
    }

    fn feed_words<P: Panel>(
        &mut self,
        life: &mut Life<P>,
        line: &Line<'_, '_>,
    ) -> anyhow::Result<()> {
        match hex_bytes(self.rt.alloc(), line.operands())? {
            Some(bytes) => self.feed(life, bytes.as_slice()),
            None => self.error(line, Mistake::NoByte),
        }
    }

    fn feed<P: Panel>(&mut self, life: &mut Life<P>, piece: &[u8]) -> anyhow::Result<()> {
        let places = self.places.as_mut_slice();
        let room = self.room.min(places.len());
        let mut faults = BoundedList::over(&mut places[..room]);
        match life.display.feed(piece, &mut faults) {
            Ok(count) => {
                println!(self.rt; "fed {count}")?;
                for fault in faults.as_slice() {
                    println!(self.rt; "{}", ToldFault(*fault))?;
                }
                life.faults.extend_from_slice(faults.as_slice())?;
                let bytes = piece.iter().map(|byte| Happening::Byte { byte: *byte });
                life.happened.extend(bytes)?;
                Ok(())
            }
            Err(refusal) => self.refused(u8::from(refusal)),
        }
    }

    fn tick<P: Panel>(&mut self, life: &mut Life<P>, count: u32) -> anyhow::Result<()> {
        let before = life.faults.len();
        for _ in 0..count {
            if let Some(fault) = life.display.tick() {
                life.faults.push(fault)?;
            }
            life.happened.push(Happening::Tick)?;
        }
        println!(self.rt; "ticked {count}")?;
        for fault in life.faults.iter().skip(before) {
            println!(self.rt; "{}", ToldFault(*fault))?;
        }
        Ok(())
    }

    fn ask<P: Panel>(&self, display: &Display<P>, question: Question) -> anyhow::Result<()> {
        match display.ask(question) {
            Ok(answer) => println!(self.rt; "{}", Told(answer))?,
            Err(refusal) => self.refused(u8::from(refusal))?,
        }
        Ok(())
    }

    fn waiting<P: Made>(&self, life: &Life<P>, line: &Line<'_, '_>) -> anyhow::Result<()> {
        match P::pending(&life.display) {
            Some(Pending { count, all }) => {
                println!(self.rt; "waiting {count} {}", u8::from(all))?;
                Ok(())
            }
            None => self.error(line, Mistake::NoList),
        }
    }

    fn replay<P: Made>(&self, life: &Life<P>) -> anyhow::Result<()> {
        let same = P::is_same_again(life, self.rt.alloc())?;
        println!(self.rt; "{}", if same { "same" } else { "different" })?;
        Ok(())
    }
}

// The question that a request asks, if it asks one.
fn question(request: Request) -> Option<Question> {
    match request {
        Request::Cell { column, row } => Some(Question::Cell { column, row }),
        Request::Cursor => Some(Question::Cursor),
        Request::Window { number } => Some(Question::Window { number }),
        Request::User { code } => Some(Question::User { code }),
        Request::Macro { index } => Some(Question::Macro {
            index: index as usize,
        }),
        Request::Lamp => Some(Question::Lamp),
        Request::Modes => Some(Question::Modes),
        _ => None,
    }
}
