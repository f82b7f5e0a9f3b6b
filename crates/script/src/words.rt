// The words of a line, apart by blanks or tabs, and their bytes.
ghost use Rattle.std.specs.Prelude.{◌≡◌, [], ◌++◌, IfOk, Some, None, MatchOption, OnOk};
ghost use Rattle.script.specs.Splits.{blank, texts, gather, words_of, from_word, after_first, bytes_of, WordsStand};

use crate::digits::read_hex;
use std::alloc::{AllocError, Global};

fn is_blank(byte: u8) -> bool
    ensures { result ≡ blank byte }
{
    byte == b' ' || byte == b'\t'
}

// The line from its first word on.
fn from_word(line: &[u8]) -> &[u8]
    ensures { result.now ≡ from_word line.now }
{
    let start = line.iter().position(|byte| !is_blank(*byte));
    &line[start.unwrap_or(line.len())..]
}

// (A line of blanks alone is quick: no vector is gathered for it.)
fn split<'a>(heap: Global, line: &'a [u8]) -> Result<Vec<&'a [u8]>, AllocError>
    ensures { IfOk result (λ v. texts v.items ≡ gather [] line.now) }
{
    let text = from_word(line);
    if text.is_empty() {
        return Ok(Vec::new(heap));
    }
    text.split(|byte| is_blank(*byte))
        .filter(|word| !word.is_empty())
        .collect(heap)
}

// The words of a line; a comment, which begins with '#', has none.
#[tactic(auto, using(crate::proofs::Steps::words_stand))]
pub fn words<'a>(heap: Global, line: &'a [u8]) -> Result<Vec<&'a [u8]>, AllocError>
    ensures value { IfOk result (λ v. texts v.items ≡ words_of line.now) }
    ensures always { WordsStand }
{
    match line {
        [b'#', ..] => Ok(Vec::new(heap)),
        _ => split(heap, line),
    }
}

// What follows the first word and one blank or tab.
pub fn after_first(line: &[u8]) -> &[u8]
    ensures { result.now ≡ after_first line.now }
{
    let word = from_word(line);
    match word.iter().position(|byte| is_blank(*byte)) {
        Some(end) => &word[end + 1..],
        None => &[],
    }
}

// The bytes that the words write in hex; `None` where one of them writes none.
pub fn hex_bytes(heap: Global, words: &[&[u8]]) -> Result<Option<Vec<u8>>, AllocError>
    ensures { IfOk result (λ o. MatchOption o (bytes_of (texts words.now) ≡ None) (λ v. bytes_of (texts words.now) ≡ Some v.items)) }
{
    // A loop, since `collect` into an `Option` does not promise when it is `None`.
    let mut out = Vec::new(heap);
    for word in words {
        let Some(byte) = read_hex(word) else {
            return Ok(None);
        };
        out.push(byte)?;
    }
    Ok(Some(out))
}
