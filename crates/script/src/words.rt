//! The words of a line, taken from its front one by one.
ghost use Rattle.std.specs.Prelude.{◌≡◌, ℕ, ◌<◌, false, List, length, slice_index};
ghost use Rattle.std.specs.Iterator.{YieldsFirstRef, item_count};
ghost use Rattle.script.specs.Cursor.{word_end};
ghost use Rattle.script.specs.Readings.{ended};
ghost use Rattle.script.specs.Splitting.{blank, unreturned, uncommented, words_in, words};

use std::marker::Model;

/// What is left of a line. Contracts see the list of the words that are still to come.
#[derive(Drop)]
pub(crate) struct Words<'a> {
    rest: &'a [u8],
}

impl<'a> Model for Words<'a> {
    ghost Value = { List (List ℕ) };

    ghost view = { λ w. words_in w.rest.now };
}

impl<'a> Words<'a> {
    pub(crate) fn of(line: &'a [u8]) -> Words<'a>
        ensures has_all_words { result ≡ words line.now }
    {
        Words {
            rest: without_comment(without_return(line)),
        }
    }

    pub(crate) fn is_empty(&self) -> bool
        ensures tells_whether_none_is_left { result ≡ ended self.now }
    {
        without_blanks(self.rest).is_empty()
    }
}

/// Takes the first word, where one is left.
impl<'a> Iterator for Words<'a> {
    type Item = &'a [u8];

    ghost next_gives = { YieldsFirstRef (λ ws. ws) };

    ghost remaining = { item_count (λ ws. ws) };

    fn next(&mut self) -> Option<&'a [u8]> {
        let text = without_blanks(self.rest);
        if text.is_empty() {
            return None;
        }
        let (word, rest) = text.split_at(word_length(text));
        self.rest = rest;
        Some(word)
    }
}

fn is_blank(byte: u8) -> bool
    ensures tells_blanks { result ≡ blank byte }
{
    matches!(byte, b' ' | b'\t')
}

fn without_return(line: &[u8]) -> &[u8]
    ensures cuts_the_return { result.now ≡ unreturned line.now }
{
    line.strip_suffix(b"\r").unwrap_or(line)
}

fn without_comment(line: &[u8]) -> &[u8]
    ensures cuts_the_comment { result.now ≡ uncommented line.now }
{
    let end = line
        .iter()
        .position(|byte| *byte == b'#')
        .unwrap_or(line.len());
    &line[..end]
}

fn without_blanks(text: &[u8]) -> &[u8]
    ensures has_the_same_words { words_in result.now ≡ words_in text.now }
    ensures begins_a_word { 0 < length result.now → blank (slice_index result.now 0) ≡ false }
{
    let start = text
        .iter()
        .position(|byte| !is_blank(*byte))
        .unwrap_or(text.len());
    &text[start..]
}

fn word_length(text: &[u8]) -> usize
    ensures ends_at_the_blank { result ≡ word_end text.now }
{
    text.iter()
        .position(|byte| is_blank(*byte))
        .unwrap_or(text.len())
}
