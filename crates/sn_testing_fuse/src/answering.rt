//! Answers of lines.
//!
//! The fields stand in the order of the structs: times as `SECONDS NANOSECONDS`.

ghost use Rattle.std.specs.Prelude.{◌≡◌, ◌≤◌, [], IfOk, OnOk};
ghost use Rattle.sn_fuse_replies.specs.Answer.{tail_of};

use crate::errors::errno_of;
use crate::short::short_answer_of;
use anyhow::{Context, Result, bail, ensure};
use hex::decode;
use sn_fuse::{Data, Time};
use sn_fuse_flags::InitFlags;
use sn_fuse_replies::{
    Answer, Attributes, DirectoryEntry, Entry, EntryKind, Initialized, Listing, NAME_MAX, Opened,
    Statistics, encode,
};
use sn_testing_tables::{Case, pair_of};
use std::alloc::Global;

fn wide(case: Case<'_>, at: usize) -> Result<u64> {
    let word = case.word(at)?;
    word.parse().context(format_args!("no number: {word}"))
}

fn half(case: Case<'_>, at: usize) -> Result<u16> {
    let word = case.word(at)?;
    word.parse().context(format_args!("no number: {word}"))
}

fn time(case: Case<'_>, at: usize) -> Result<Time> {
    Ok(Time {
        seconds: wide(case, at)?,
        nanoseconds: case.number(at.saturating_add(1))?,
    })
}

fn attributes(words: &str) -> Result<Attributes> {
    let case = Case::new(words);
    Ok(Attributes {
        number: wide(case, 0)?,
        size: wide(case, 1)?,
        blocks: wide(case, 2)?,
        accessed: time(case, 3)?,
        modified: time(case, 5)?,
        changed: time(case, 7)?,
        mode: case.number(9)?,
        links: case.number(10)?,
        user: case.number(11)?,
        group: case.number(12)?,
        device: case.number(13)?,
        block_size: case.number(14)?,
    })
}

fn entry(words: &str) -> Result<Entry> {
    let (front, back) = words.split_once(';').context("no attributes")?;
    let case = Case::new(front);
    Ok(Entry {
        node: wide(case, 0)?,
        generation: wide(case, 1)?,
        name_lasts: time(case, 2)?,
        attributes_last: time(case, 4)?,
        attributes: attributes(back)?,
    })
}

fn opened(words: &str) -> Result<Opened> {
    let case = Case::new(words);
    Ok(Opened {
        handle: wide(case, 0)?,
        flags: case.number(1)?,
    })
}

fn statistics(words: &str) -> Result<Statistics> {
    let case = Case::new(words);
    Ok(Statistics {
        blocks: wide(case, 0)?,
        free: wide(case, 1)?,
        available: wide(case, 2)?,
        files: wide(case, 3)?,
        free_files: wide(case, 4)?,
        block_size: case.number(5)?,
        name_length: case.number(6)?,
        fragment_size: case.number(7)?,
    })
}

fn initialized(words: &str) -> Result<Initialized> {
    let case = Case::new(words);
    Ok(Initialized {
        major: case.number(0)?,
        minor: case.number(1)?,
        readahead: case.number(2)?,
        flags: InitFlags(case.number(3)?),
        background: half(case, 4)?,
        congestion: half(case, 5)?,
        write: case.number(6)?,
        time_granularity: case.number(7)?,
        pages: half(case, 8)?,
    })
}

// Of numbers alone.
fn fixed_answer_of<'a>(word: &str, words: &str) -> Result<Answer<'a>>
    ensures { IfOk result (λ answer. tail_of answer ≡ []) }
{
    Ok(match word {
        "ERROR" => Answer::Error {
            errno: errno_of(words)?,
        },
        "NOTHING" => Answer::Nothing,
        "ENTRY" => Answer::Entry {
            entry: entry(words)?,
        },
        "OPENED" => Answer::Opened {
            opened: opened(words)?,
        },
        "WRITTEN" => Answer::Written {
            count: Case::new(words).number(0)?,
        },
        "STATISTICS" => Answer::Statistics {
            statistics: statistics(words)?,
        },
        "XATTRSIZE" => Answer::XattrSize {
            size: Case::new(words).number(0)?,
        },
        _ => return joined_answer_of(word, words),
    })
}

// Of several structs, with semicolons between them.
fn joined_answer_of<'a>(word: &str, words: &str) -> Result<Answer<'a>>
    ensures { IfOk result (λ answer. tail_of answer ≡ []) }
{
    match word {
        "INITIALIZED" => Ok(Answer::Initialized {
            initialized: initialized(words)?,
        }),
        "ATTRIBUTES" => {
            let (front, back) = words.split_once(';').context("no attributes")?;
            Ok(Answer::Attributes {
                last: time(Case::new(front), 0)?,
                attributes: attributes(back)?,
            })
        }
        "CREATED" => {
            let (front, back) = words.rsplit_once(';').context("nothing opened")?;
            Ok(Answer::Created {
                entry: entry(front)?,
                opened: opened(back)?,
            })
        }
        _ => short_answer_of(word, words),
    }
}

fn kind_of(word: &str) -> Result<EntryKind> {
    match word {
        "directory" => Ok(EntryKind::Directory),
        "file" => Ok(EntryKind::File),
        _ => bail!("no kind: {word}"),
    }
}

// An entry `NUMBER:OFFSET:KIND:NAME`; whether it fitted.
fn push_entry(listing: &mut Listing, word: &str) -> Result<bool>
    ensures { listing.new.room ≡ listing.old.room }
{
    let (number, rest) = pair_of(word)?;
    let (offset, rest) = pair_of(rest)?;
    let (kind, name) = pair_of(rest)?;
    ensure!(name.len() <= NAME_MAX, "a long name");
    let entry = DirectoryEntry {
        number: number.parse().context("no number")?,
        offset: offset.parse().context("no offset")?,
        kind: kind_of(kind)?,
        name: name.as_bytes(),
    };
    Ok(listing.push(&entry)?)
}

// The entries that fit, in a listing of the size that the first word tells.
fn listing_of(alloc: Global, words: &str) -> Result<Listing>
    ensures { IfOk result (λ listing. listing.room ≤ 65536) }
{
    let (size, entries) = words.split_once(' ').context("no entries")?;
    let size = usize::from(size.parse::<u16>().context("no size")?);
    let mut listing = Listing::new(alloc, size);
    push_entries(&mut listing, entries)?;
    Ok(listing)
}

fn push_entries(listing: &mut Listing, entries: &str) -> Result<()>
    ensures { OnOk result (listing.new.room ≡ listing.old.room) }
{
    for word in entries.split_ascii_whitespace() {
        if !push_entry(listing, word)? {
            return Ok(());
        }
    }
    Ok(())
}

/// The answer of a line to the message with this `unique`, encoded.
pub fn answered(alloc: Global, unique: u64, line: &str) -> Result<Vec<u8>> {
    let (word, words) = line.split_once(' ').unwrap_or((line, ""));
    let mut out = Vec::new(alloc);
    match word {
        "DATA" => {
            let data = decode(alloc, words).context("no data")?;
            ensure!(data.len() <= 65_536, "much data");
            let bytes = Data::new(&data);
            encode(&mut out, unique, &Answer::Data { bytes })?;
        }
        "LISTING" => {
            let listing = listing_of(alloc, words)?;
            let listed = listing.listed();
            encode(&mut out, unique, &Answer::Listing { listed })?;
        }
        _ => encode(&mut out, unique, &fixed_answer_of(word, words)?)?,
    }
    Ok(out)
}
