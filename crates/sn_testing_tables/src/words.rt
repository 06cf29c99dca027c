//! The words of a step, and of the answer to it.

use anyhow::{Context, Result, bail};
use sn_device::Fill;

/// The number in decimal that a word is.
pub fn number_of(word: &str) -> Result<u32> {
    word.parse().context(format_args!("no number: {word}"))
}

/// The byte that a word spells in hexadecimal, as `a5`.
pub fn byte_of(word: &str) -> Result<u8> {
    u8::from_str_radix(word, 16).context(format_args!("no byte: {word}"))
}

/// What a crash leaves of a sector that wasn't synced: `old`, `new`, `zero`, `one`, `junk`, or `seed:N` for what N
/// draws of each sector.
pub fn fill_of(word: &str) -> Result<Fill> {
    Ok(match word {
        "old" => Fill::Old,
        "new" => Fill::New,
        "zero" => Fill::Zero,
        "one" => Fill::One,
        "junk" => Fill::Junk,
        _ => match word.strip_prefix("seed:") {
            Some(seed) => Fill::Seeded(u64::from(number_of(seed)?)),
            None => bail!("no fill: {word}"),
        },
    })
}

/// The two words around a colon.
pub fn pair_of(word: &str) -> Result<(&str, &str)> {
    word.split_once(':')
        .context(format_args!("no pair: {word}"))
}

/// Appends a word to an answer, behind a space where it isn't the first one.
pub fn push_word(text: &mut String, word: &str) -> Result<()> {
    if !text.is_empty() {
        text.push_str(" ")?;
    }
    text.push_str(word)?;
    Ok(())
}

/// Appends a number in decimal as a word.
pub fn push_number(text: &mut String, number: u64) -> Result<()> {
    push_word(text, "")?;
    write!(text, "{number}")?;
    Ok(())
}
