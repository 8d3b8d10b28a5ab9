//! The words of a line.
ghost use Rattle.std.specs.Prelude.{◌≡◌, ◌≤◌, ◌==◌, not, length};
ghost use Rattle.std.specs.List.{position_or_len, prefix_len};
ghost use Rattle.std.specs.Iterator.{YieldsFirstRef, item_count};
ghost use Rattle.script_text.specs.Grammar.{is_word};
ghost use Rattle.script_text.specs.Lines.{is_blank, without_return, words};

use memchr::memchr;
use std::marker::Model;

const SPACE: u8 = b' ';

/// A line of spaces alone, or of nothing, has no reply.
pub fn is_blank(line: &[u8]) -> bool
    ensures { result ≡ is_blank line.now }
{
    line.iter().all(|byte| *byte == SPACE)
}

/// A line without the carriage return at its end, where it has one.
pub fn without_return(line: &[u8]) -> &[u8]
    ensures { result.now ≡ without_return line.now }
{
    line.strip_suffix(b"\r").unwrap_or(line)
}

pub(crate) fn is_word(word: &[u8], wanted: &[u8]) -> bool
    ensures { result ≡ is_word wanted.now word.now }
{
    word == wanted
}

/// The words of a line that are left, without the spaces between them.
#[derive(Drop)]
pub(crate) struct Words<'a> {
    rest: &'a [u8],
}

impl<'a> Model for Words<'a> {
    ghost use Rattle.std.specs.Prelude.{ℕ, List};
    ghost use Rattle.script_text.specs.Lines.{words};

    ghost Value = { List (List ℕ) };

    ghost view = { λ w. words w.rest.now };
}

impl<'a> Words<'a> {
    ghost use Rattle.std.specs.Option.{option_copied};
    ghost use Rattle.script_text.specs.Reading.{part_value};

    pub(crate) fn new(line: &'a [u8]) -> Words<'a>
        ensures { result ≡ words line.now }
    {
        Words { rest: line }
    }

    /// The same words, to be read once more.
    pub(crate) fn again(&self) -> Words<'a>
        ensures { result ≡ self.now }
    {
        Words { rest: self.rest }
    }

    /// Takes the first word where it has this key in front, and gives what follows the key.
    pub(crate) fn part(&mut self, key: &[u8]) -> Option<&'a [u8]>
        ensures value { option_copied result ≡ (part_value key.now self.old).0 }
        ensures rest { self.new ≡ (part_value key.now self.old).1 }
    {
        let mut ahead = Words::new(self.rest);
        let word = ahead.next()?;
        let value = word.strip_prefix(key)?;
        *self = ahead;
        Some(value)
    }
}

impl<'a> Iterator for Words<'a> {
    type Item = &'a [u8];

    ghost next_gives = { YieldsFirstRef (λ words. words) };

    ghost remaining = { item_count (λ words. words) };

    fn next(&mut self) -> Option<&'a [u8]> {
        let (_, rest) = self.rest.split_at(spaces_before(self.rest));
        if rest.is_empty() {
            return None;
        }
        let (word, rest) = rest.split_at(word_length(rest));
        self.rest = rest;
        Some(word)
    }
}

// How many spaces stand in front.
fn spaces_before(text: &[u8]) -> usize
    ensures count { result ≡ prefix_len (λ b. b == 32) text.now }
    ensures within { result ≤ length text.now }
{
    text.iter().take_while(|byte| **byte == SPACE).count()
}

// How many bytes stand before the first space.
fn word_length(text: &[u8]) -> usize
    ensures count { result ≡ prefix_len (λ b. not (b == 32)) text.now }
    ensures within { result ≤ length text.now }
{
    length_before(SPACE, text)
}

/// How many bytes stand before the first one that is this, or all where none is.
pub fn length_before(byte: u8, text: &[u8]) -> usize
    ensures count { result ≡ position_or_len (λ b. b == byte) text.now }
    ensures within { result ≤ length text.now }
{
    match memchr(byte, text) {
        Some(at) => at,
        None => text.len(),
    }
}
