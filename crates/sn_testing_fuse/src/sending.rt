//! The bytes of a line.

use crate::layouts::layout_of;
use anyhow::{Context, Result, bail};
use hex::decode;
use sn_testing_tables::{Case, pair_of};
use std::alloc::Global;

const HEAD_SIZE: usize = 40;

// What stands where nobody reads.
const UNREAD: [u8; 4] = [0xa5; 4];

// How many words stand before the fields.
const FRONT: usize = 3;

// A message that is being made, and the next word of its line.
#[derive(Drop)]
struct Body<'a> {
    alloc: Global,
    case: Case<'a>,
    at: usize,
    bytes: Vec<u8>,
}

// The process of a line that names none.
const PROCESS: &str = "77";

// A number in decimal, or in octal after `0o`.
fn wide_of(word: &str) -> Result<u64> {
    match word.strip_prefix("0o") {
        Some(digits) => u64::from_str_radix(digits, 8).context(format_args!("no number: {word}")),
        None => word.parse().context(format_args!("no number: {word}")),
    }
}

fn narrow_of(word: &str) -> Result<u32> {
    u32::try_from(wide_of(word)?).context(format_args!("a long number: {word}"))
}

fn data_of(alloc: Global, word: &str) -> Result<Vec<u8>> {
    let digits = word
        .strip_prefix('x')
        .context(format_args!("no data: {word}"))?;
    decode(alloc, digits).context(format_args!("no data: {word}"))
}

impl<'a> Body<'a> {
    fn word(&mut self) -> Result<&'a str> {
        let word = self.case.word(self.at)?;
        self.at = self.at.saturating_add(1);
        Ok(word)
    }

    fn words_left(&self) -> usize {
        let words = self.case.text().split_ascii_whitespace().count();
        words.saturating_sub(self.at)
    }

    fn push_wide(&mut self, number: u64) -> Result<()> {
        self.bytes.extend_from_slice(&number.to_le_bytes())?;
        Ok(())
    }

    fn push_number(&mut self, number: u32) -> Result<()> {
        self.bytes.extend_from_slice(&number.to_le_bytes())?;
        Ok(())
    }

    fn push_name(&mut self) -> Result<()> {
        let word = self.word()?;
        let name = word
            .strip_prefix('/')
            .context(format_args!("no name: {word}"))?;
        self.bytes.extend_from_slice(name.as_bytes())?;
        self.bytes.push(0)?;
        Ok(())
    }

    // The size of the data that the last word has.
    fn push_size(&mut self) -> Result<()> {
        let word = self
            .case
            .text()
            .split_ascii_whitespace()
            .last()
            .context("no data")?;
        let size = data_of(self.alloc, word)?.len();
        self.push_number(u32::try_from(size).context("too much data")?)
    }

    fn push_data(&mut self) -> Result<()> {
        let word = self.word()?;
        let data = data_of(self.alloc, word)?;
        self.bytes.extend_from_slice(&data)?;
        Ok(())
    }

    fn push_pairs(&mut self) -> Result<()> {
        for _pair in 0..self.words_left() {
            let (node, lookups) = pair_of(self.word()?)?;
            self.push_wide(wide_of(node)?)?;
            self.push_wide(wide_of(lookups)?)?;
        }
        Ok(())
    }

    fn push_field(&mut self, field: u8) -> Result<()> {
        match field {
            b'q' => {
                let number = wide_of(self.word()?)?;
                self.push_wide(number)
            }
            b'w' => {
                let number = narrow_of(self.word()?)?;
                self.push_number(number)
            }
            b'g' => Ok(self.bytes.extend_from_slice(&UNREAD)?),
            b's' => self.push_size(),
            b'c' => self.push_number(u32::try_from(self.words_left()).context("many pairs")?),
            b'n' => self.push_name(),
            b'd' => self.push_data(),
            b'p' => self.push_pairs(),
            _ => bail!("no layout"),
        }
    }
}

/// The message of a line, with this `unique`. A line that is data is the message as it is.
pub fn message(alloc: Global, unique: u64, line: &str) -> Result<Vec<u8>> {
    if line.starts_with('x') {
        return data_of(alloc, line);
    }
    let case = Case::new(line);
    let (opcode, layout) = layout_of(case.word(0)?)?;
    let fields = body_of(alloc, case, layout)?;
    let mut message = head_of(alloc, unique, case, opcode, fields.len())?;
    message.extend_from_slice(&fields)?;
    Ok(message)
}

// The head of a message whose body has so many bytes.
fn head_of(
    alloc: Global,
    unique: u64,
    case: Case<'_>,
    opcode: u32,
    size: usize,
) -> Result<Vec<u8>> {
    let (user, rest) = pair_of(case.word(2)?)?;
    let (group, process) = rest.split_once(':').unwrap_or((rest, PROCESS));
    let mut head = Body {
        alloc,
        case,
        at: 0,
        bytes: Vec::new(alloc),
    };
    let length = size.saturating_add(HEAD_SIZE);
    head.push_number(u32::try_from(length).context("a long message")?)?;
    head.push_number(opcode)?;
    head.push_wide(unique)?;
    head.push_wide(wide_of(case.word(1)?)?)?;
    head.push_number(narrow_of(user)?)?;
    head.push_number(narrow_of(group)?)?;
    head.push_number(narrow_of(process)?)?;
    head.bytes.extend_from_slice(&UNREAD)?;
    Ok(head.bytes)
}

fn body_of(alloc: Global, case: Case<'_>, layout: &str) -> Result<Vec<u8>> {
    let mut body = Body {
        alloc,
        case,
        at: FRONT,
        bytes: Vec::new(alloc),
    };
    for field in layout.as_bytes() {
        body.push_field(*field)?;
    }
    Ok(body.bytes)
}
