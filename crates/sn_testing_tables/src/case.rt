//! The words of a case.

use crate::number_of;
use anyhow::{Context, Result};
use percent_encoding::percent_decode;
use std::alloc::Global;

/// What stands before the answer on a line of a table: words with spaces between them.
#[derive(Clone, Copy)]
pub struct Case<'a> {
    text: &'a str,
}

impl<'a> Case<'a> {
    /// The case of this text.
    pub fn new(text: &'a str) -> Self {
        Case { text }
    }

    /// All words, as they stand there.
    pub fn text(self) -> &'a str {
        self.text
    }

    /// The word at an index, from 0 up.
    pub fn word(self, at: usize) -> Result<&'a str> {
        self.text
            .split_ascii_whitespace()
            .nth(at)
            .context(format_args!("no word {at} in: {}", self.text))
    }

    /// The number in decimal at an index.
    pub fn number(self, at: usize) -> Result<u32> {
        number_of(self.word(at)?)
    }

    /// The number in octal at an index.
    pub fn octal(self, at: usize) -> Result<u16> {
        let word = self.word(at)?;
        u16::from_str_radix(word, 8).context(format_args!("no octal number: {word}"))
    }

    /// The numbers with commas between them at an index, or `-` for none.
    pub fn numbers(self, alloc: Global, at: usize) -> Result<Vec<u32>> {
        let mut numbers = Vec::new(alloc);
        let word = self.word(at)?;
        if word == "-" {
            return Ok(numbers);
        }
        for part in word.split(',') {
            numbers.push(number_of(part)?)?;
        }
        Ok(numbers)
    }

    /// The bytes of all words and of the spaces between them, where `%20` is one more space, and so
    /// on for each byte that a table can't show.
    pub fn bytes(self, alloc: Global) -> Result<Vec<u8>> {
        let mut bytes = Vec::new(alloc);
        percent_decode(self.text.as_bytes()).append_to(&mut bytes)?;
        Ok(bytes)
    }
}
