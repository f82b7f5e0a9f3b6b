// A line's words as a request.
ghost use Rattle.std.specs.Prelude.{◌≡◌, ◌≤◌, IfOk};
ghost use Rattle.requests.specs.Asked.{Taken, alone_of, make_asked, cell_asked, on_asked, asked, request_of};
ghost use Rattle.requests.specs.Keywords.{keyword_of, KeywordsStand};
ghost use Rattle.script.specs.Splits.{texts};

use crate::requests::{Keyword, Make, Mistake, Request};
use script::digits::number;

// The command that has this name.
#[tactic(auto, unfolding(crate::specs::Keywords::keyword_of))]
fn keyword(word: &[u8]) -> Option<Keyword>
    ensures { result ≡ keyword_of word.now }
{
    match word {
        b"on" => Some(Keyword::On),
        b"room" => Some(Keyword::Room),
        b"feed" => Some(Keyword::Feed),
        b"text" => Some(Keyword::Text),
        b"tick" => Some(Keyword::Tick),
        b"painted" => Some(Keyword::Painted),
        b"waiting" => Some(Keyword::Waiting),
        b"cell" => Some(Keyword::Cell),
        b"cursor" => Some(Keyword::Cursor),
        b"window" => Some(Keyword::Window),
        b"user" => Some(Keyword::User),
        b"macro" => Some(Keyword::Macro),
        b"lamp" => Some(Keyword::Lamp),
        b"modes" => Some(Keyword::Modes),
        b"glass" => Some(Keyword::Glass),
        b"show" => Some(Keyword::Show),
        b"items" => Some(Keyword::Items),
        b"replay" => Some(Keyword::Replay),
        b"off" => Some(Keyword::Off),
        _ => None,
    }
}

// The next word as a number of at most `most`, and the words after it.
fn operand<'b, 'a>(most: u32, words: &'b [&'a [u8]]) -> Result<(u32, &'b [&'a [u8]]), Mistake>
    ensures value { Taken most (texts words.now) result }
    ensures bound { IfOk result (λ p. p.0 ≤ most) }
{
    let (word, rest) = words.split_first().ok_or(Mistake::FewWords)?;
    let n = number(word).ok_or(Mistake::NoNumber)?;
    if n > most {
        return Err(Mistake::LargeNumber);
    }
    Ok((n, rest))
}

// The next word as a byte, and the words after it. (A generic over `TryFrom` would have to promise when that fails.)
fn byte_operand<'b, 'a>(words: &'b [&'a [u8]]) -> Result<(u8, &'b [&'a [u8]]), Mistake>
    ensures { Taken 255 (texts words.now) result }
{
    let (n, rest) = operand(255, words)?;
    Ok((n as u8, rest))
}

// The value, if no words are left.
fn alone<T: Drop>(value: T, words: &[&[u8]]) -> Result<T, Mistake>
    ensures { result ≡ alone_of value (texts words.now) }
{
    match words {
        [] => Ok(value),
        _ => Err(Mistake::ManyWords),
    }
}

fn cell(words: &[&[u8]]) -> Result<Request, Mistake>
    ensures { result ≡ cell_asked (texts words.now) }
{
    let (column, rest) = byte_operand(words)?;
    let (row, rest) = byte_operand(rest)?;
    alone(Request::Cell { column, row }, rest)
}

// The make of the panel.
fn panel_make(words: &[&[u8]]) -> Result<Make, Mistake>
    ensures { result ≡ make_asked (texts words.now) }
{
    match words {
        [] => Err(Mistake::FewWords),
        [b"plain", rest @ ..] => alone(Make::Plain, rest),
        [b"strip", rest @ ..] => {
            let (places, rest) = operand(64, rest)?;
            alone(Make::Strip { places }, rest)
        }
        _ => Err(Mistake::NoMake),
    }
}

fn on(words: &[&[u8]]) -> Result<Request, Mistake>
    ensures { result ≡ on_asked (texts words.now) }
{
    let (set, rest) = byte_operand(words)?;
    let (table, rest) = byte_operand(rest)?;
    let (brightness, rest) = byte_operand(rest)?;
    Ok(Request::On {
        set,
        table,
        brightness,
        make: panel_make(rest)?,
    })
}

fn tick(words: &[&[u8]]) -> Result<Request, Mistake>
    ensures { result ≡ asked Keyword.Tick (texts words.now) }
{
    let (count, rest) = operand(1000000, words)?;
    alone(Request::Tick { count }, rest)
}

// What a keyword asks for with the words after it.
fn asked(keyword: Keyword, words: &[&[u8]]) -> Result<Request, Mistake>
    ensures { result ≡ asked keyword (texts words.now) }
{
    match keyword {
        Keyword::On => on(words),
        Keyword::Room => {
            let (places, rest) = operand(8192, words)?;
            alone(Request::Room { places }, rest)
        }
        Keyword::Feed => Ok(Request::Feed),
        Keyword::Text => Ok(Request::Text),
        Keyword::Tick => tick(words),
        Keyword::Painted => alone(Request::Painted, words),
        Keyword::Waiting => alone(Request::Waiting, words),
        Keyword::Cell => cell(words),
        Keyword::Cursor => alone(Request::Cursor, words),
        Keyword::Window => {
            let (number, rest) = byte_operand(words)?;
            alone(Request::Window { number }, rest)
        }
        Keyword::User => {
            let (code, rest) = byte_operand(words)?;
            alone(Request::User { code }, rest)
        }
        Keyword::Macro => {
            let (index, rest) = operand(999999999, words)?;
            alone(Request::Macro { index }, rest)
        }
        Keyword::Lamp => alone(Request::Lamp, words),
        Keyword::Modes => alone(Request::Modes, words),
        Keyword::Glass => alone(Request::Glass, words),
        Keyword::Show => alone(Request::Show, words),
        Keyword::Items => Ok(Request::Items),
        Keyword::Replay => alone(Request::Replay, words),
        Keyword::Off => alone(Request::Off, words),
    }
}

// What a line's words ask for.
#[tactic(auto, using(crate::proofs::Asking::keywords_stand))]
pub fn request(words: &[&[u8]]) -> Result<Request, Mistake>
    ensures value { result ≡ request_of (texts words.now) }
    ensures always { KeywordsStand }
{
    match words {
        [] => Ok(Request::Nothing),
        [first, rest @ ..] => asked(keyword(first).ok_or(Mistake::Unknown)?, rest),
    }
}
