//! Answers in short, as those of a file system that keeps no times: all times are 0, the block size is 4,096, names last a year, and
//! attributes don't last, or with `HELD` before the answer a year too.

ghost use Rattle.std.specs.Prelude.{◌≡◌, [], IfOk};
ghost use Rattle.sn_fuse_replies.specs.Answer.{tail_of};

use anyhow::{Context, Result, bail};
use sn_fuse::Time;
use sn_fuse_replies::{Answer, Attributes, Entry, Opened};
use sn_testing_tables::{Case, number_of, pair_of};

/// S_IFDIR and S_IFREG of <sys/stat.h>.
const DIRECTORY: u32 = 0x4000;

const FILE: u32 = 0x8000;

const NO_TIME: Time = Time {
    seconds: 0,
    nanoseconds: 0,
};

const YEAR: Time = Time {
    seconds: 31_536_000,
    nanoseconds: 0,
};

fn wide(case: Case<'_>, at: usize) -> Result<u64> {
    let word = case.word(at)?;
    word.parse().context(format_args!("no number: {word}"))
}

// The kind's bits of a mode's word, and its digits.
fn kind_of(word: &str) -> Option<(u32, &str)> {
    if let Some(digits) = word.strip_prefix('d') {
        return Some((DIRECTORY, digits));
    }
    let digits = word.strip_prefix('f')?;
    Some((FILE, digits))
}

// A mode, as `d0755` of a directory and `f0644` of a file.
fn mode_of(word: &str) -> Result<u32> {
    let (kind, digits) = kind_of(word).context(format_args!("no mode: {word}"))?;
    let bits = u32::from_str_radix(digits, 8).context(format_args!("no mode: {word}"))?;
    Ok(kind | bits)
}

// `NUMBER MODE LINKS USER:GROUP SIZE`, from a word on.
fn attributes(case: Case<'_>, at: usize) -> Result<Attributes> {
    let (user, group) = pair_of(case.word(at.saturating_add(3))?)?;
    let size = wide(case, at.saturating_add(4))?;
    Ok(Attributes {
        number: wide(case, at)?,
        size,
        blocks: size.div_ceil(512),
        accessed: NO_TIME,
        modified: NO_TIME,
        changed: NO_TIME,
        mode: mode_of(case.word(at.saturating_add(1))?)?,
        links: case.number(at.saturating_add(2))?,
        user: number_of(user)?,
        group: number_of(group)?,
        device: 0,
        block_size: 4096,
    })
}

// A node, and its attributes, with how long they last.
fn entry(last: Time, case: Case<'_>) -> Result<Entry> {
    Ok(Entry {
        node: wide(case, 0)?,
        generation: 0,
        name_lasts: YEAR,
        attributes_last: last,
        attributes: attributes(case, 1)?,
    })
}

/// `FOUND NODE ATTRIBUTES`, `KNOWN ATTRIBUTES` or `MADE NODE ATTRIBUTES HANDLE`, or one of these after `HELD`.
pub(crate) fn short_answer_of<'a>(word: &str, words: &str) -> Result<Answer<'a>>
    ensures { IfOk result (λ answer. tail_of answer ≡ []) }
{
    if word == "HELD" {
        let (word, words) = words.split_once(' ').context("nothing held")?;
        return lasting_answer_of(YEAR, word, words);
    }
    lasting_answer_of(NO_TIME, word, words)
}

fn lasting_answer_of<'a>(last: Time, word: &str, words: &str) -> Result<Answer<'a>>
    ensures { IfOk result (λ answer. tail_of answer ≡ []) }
{
    let case = Case::new(words);
    match word {
        "FOUND" => Ok(Answer::Entry {
            entry: entry(last, case)?,
        }),
        "KNOWN" => Ok(Answer::Attributes {
            last,
            attributes: attributes(case, 0)?,
        }),
        "MADE" => Ok(Answer::Created {
            entry: entry(last, case)?,
            opened: Opened {
                handle: wide(case, 6)?,
                flags: 0,
            },
        }),
        _ => bail!("no answer: {word}"),
    }
}
