ghost use Rattle.std.specs.Prelude.{◌≡◌, ◌^◌, ◌≤◌, ◌∷◌, [], map, length};
ghost use Rattle.std.specs.Char.{is_ascii_graphic};
ghost use Rattle.std.specs.List.{list_all, list_any};
ghost use Rattle.sn_words.specs.Fields.{is_word};
ghost use Rattle.sn_words.specs.Reading.{IsRead, number_below, octal_digit_of, octal_of, right_of, want_of, kind_named, numbers_of, groups_of, id_of, word_of, letter_of, flags_of, file_mode_of, content_of, are_lower_digits, is_upper_digit};

use crate::cut::parts;
use crate::fault::SpellingFault;
use arrayvec::ArrayVec;
use hex::FromHexError;
use itoa::Buffer;
use sn_acl::MAX_GROUPS;
use sn_model::{Access, AclKind, FileData, Groups, OpenFlags, Word};
use std::alloc::Global;

/// A decimal number of 64 bits, without leading zeros.
pub fn long_number(word: &[u8]) -> Result<u64, SpellingFault>
    ensures { IsRead (λ n. n) result (number_below (2 ^ 64) word.now) }
{
    let Ok(text) = str::from_utf8(word) else {
        return Err(SpellingFault::Bad);
    };
    let Ok(number) = text.parse::<u64>() else {
        return Err(SpellingFault::Bad);
    };
    let mut buffer = Buffer::new();
    if buffer.format(number).as_bytes() == word {
        Ok(number)
    } else {
        Err(SpellingFault::Bad)
    }
}

/// A decimal number of 32 bits, without leading zeros.
///
/// Proved, also of `long_number`, `octal`, `want`, `acl_kind`, `word`, `groups`, `id`, `flags`, `file_mode` and `content`:
/// Each kind of word is read exactly where it is spelled, and as the value that it spells.
pub fn number(word: &[u8]) -> Result<u32, SpellingFault>
    ensures { IsRead (λ n. n) result (number_below (2 ^ 32) word.now) }
{
    let number = long_number(word)?;
    match u32::try_from(number) {
        Ok(number) => Ok(number),
        Err(_) => Err(SpellingFault::Bad),
    }
}

fn octal_digit(byte: u8) -> Result<u16, SpellingFault>
    ensures { IsRead (λ n. n) result (octal_digit_of byte) }
{
    if b'0' <= byte && byte <= b'7' {
        Ok(u16::from(byte - b'0'))
    } else {
        Err(SpellingFault::Bad)
    }
}

/// Four octal digits.
#[tactic(auto, unfolding(crate::specs::Reading::octal_of))]
pub fn octal(word: &[u8]) -> Result<u16, SpellingFault>
    ensures { IsRead (λ n. n) result (octal_of word.now) }
{
    let &[first, second, third, fourth] = word else {
        return Err(SpellingFault::Bad);
    };
    let first = octal_digit(first)?;
    let second = octal_digit(second)?;
    let third = octal_digit(third)?;
    let fourth = octal_digit(fourth)?;
    Ok(512 * first + 64 * second + 8 * third + fourth)
}

/// Whether a letter is there, and not a dash.
fn right(letter: u8, byte: u8) -> Result<bool, SpellingFault>
    ensures { IsRead (λ b. b) result (right_of letter byte) }
{
    if byte == letter {
        Ok(true)
    } else if byte == b'-' {
        Ok(false)
    } else {
        Err(SpellingFault::Bad)
    }
}

/// Three letters of `r`, `w` and `x`, with a dash for each right that isn't asked.
#[tactic(auto, unfolding(crate::specs::Reading::want_of))]
pub fn want(word: &[u8]) -> Result<Access, SpellingFault>
    ensures { IsRead (λ a. a) result (want_of word.now) }
{
    let &[read, write, execute] = word else {
        return Err(SpellingFault::Bad);
    };
    let read = right(b'r', read)?;
    let write = right(b'w', write)?;
    let execute = right(b'x', execute)?;
    Ok(Access {
        read,
        write,
        execute,
    })
}

/// `a` or `d`.
#[tactic(auto, unfolding(crate::specs::Reading::kind_named))]
pub fn acl_kind(word: &[u8]) -> Result<AclKind, SpellingFault>
    ensures { IsRead (λ k. k) result (kind_named word.now) }
{
    match word {
        b"a" => Ok(AclKind::Access),
        b"d" => Ok(AclKind::Default),
        _ => Err(SpellingFault::Bad),
    }
}

/// A word of printable bytes.
pub fn word(alloc: Global, bytes: &[u8]) -> Result<Word, SpellingFault>
    ensures { IsRead (λ w. w) result (word_of bytes.now) }
{
    if is_word(bytes) {
        Ok(Word::new(alloc, bytes)?)
    } else {
        Err(SpellingFault::Bad)
    }
}

fn is_word(bytes: &[u8]) -> bool
    ensures { result ≡ is_word bytes.now }
{
    !bytes.is_empty() && is_graphic(bytes)
}

fn is_graphic(bytes: &[u8]) -> bool
    ensures { result ≡ list_all is_ascii_graphic bytes.now }
{
    bytes.iter().all(|byte| byte.is_ascii_graphic())
}

fn numbers(words: &[&[u8]]) -> Result<ArrayVec<u32, MAX_GROUPS>, SpellingFault>
    requires { length words.now ≤ 32 }
    ensures { IsRead (λ ns. ns.items) result (numbers_of (map (λ w. w.now) words.now)) }
{
    let mut numbers = ArrayVec::new();
    for word in words {
        numbers.push(number(word)?);
    }
    Ok(numbers)
}

/// Group numbers joined by commas, or a dash for none.
#[tactic(auto, unfolding(crate::specs::Reading::groups_of))]
pub fn groups(alloc: Global, word: &[u8]) -> Result<Groups, SpellingFault>
    ensures { IsRead (λ g. g) result (groups_of word.now) }
{
    if let b"-" = word {
        return Ok(Groups::new(alloc, &[])?);
    }
    let Some(words) = parts::<MAX_GROUPS>(word, b',') else {
        return Err(SpellingFault::Bad);
    };
    let numbers = numbers(words.as_slice())?;
    Ok(Groups::new(alloc, numbers.as_slice())?)
}

/// The number of a user or a group, or a dash for none.
#[tactic(auto, unfolding(crate::specs::Reading::id_of))]
pub fn id(word: &[u8]) -> Result<Option<u32>, SpellingFault>
    ensures { IsRead (λ n. n) result (id_of word.now) }
{
    if let b"-" = word {
        return Ok(None);
    }
    let number = number(word)?;
    Ok(Some(number))
}

/// Takes a letter off the front, where it is there.
fn letter(letter: u8, text: &[u8]) -> (bool, &[u8])
    ensures { letter_of letter text.now ≡ (result.0, result.1.now) }
{
    match text {
        [first, rest @ ..] if *first == letter => (true, rest),
        _ => (false, text),
    }
}

/// One or more of the letters `rwacxt`, each at most once and in this order.
#[tactic(auto, unfolding(crate::specs::Reading::flags_of))]
pub fn flags(word: &[u8]) -> Result<OpenFlags, SpellingFault>
    ensures { IsRead (λ f. f) result (flags_of word.now) }
{
    let (read, rest) = letter(b'r', word);
    let (write, rest) = letter(b'w', rest);
    let (append, rest) = letter(b'a', rest);
    let (create, rest) = letter(b'c', rest);
    let (exclusive, rest) = letter(b'x', rest);
    let (truncate, rest) = letter(b't', rest);
    if word.is_empty() || !rest.is_empty() {
        return Err(SpellingFault::Bad);
    }
    Ok(OpenFlags {
        read,
        write,
        append,
        create,
        exclusive,
        truncate,
    })
}

/// The mode after the flags where a file may be made, and 0 where none is.
#[tactic(auto, unfolding(crate::specs::Reading::file_mode_of))]
pub fn file_mode(creates: bool, words: &[&[u8]]) -> Result<u16, SpellingFault>
    ensures { IsRead (λ m. m) result (file_mode_of creates (map (λ w. w.now) words.now)) }
{
    match (creates, words) {
        (true, &[mode]) => octal(mode),
        (false, &[]) => Ok(0),
        _ => Err(SpellingFault::Bad),
    }
}

// Whether a digit is one that is written in upper case.
fn is_upper_digit(digit: u8) -> bool
    ensures { result ≡ is_upper_digit digit }
{
    matches!(digit, b'A'..=b'F')
}

fn has_upper_digits(word: &[u8]) -> bool
    ensures { result ≡ list_any is_upper_digit word.now }
{
    word.iter().any(|digit| is_upper_digit(*digit))
}

// One digit or more, and none of them in upper case. Whether the others are digits is for decoding to find.
fn are_lower_digits(word: &[u8]) -> bool
    ensures { result ≡ are_lower_digits word.now }
{
    !word.is_empty() && !has_upper_digits(word)
}

/// Bytes in hexadecimal, or a dash for none.
#[tactic(auto, using(crate::proofs::Digits::content_low, crate::proofs::Digits::content_not_low), unfolding(crate::specs::Reading::content_of))]
pub fn content(alloc: Global, word: &[u8]) -> Result<FileData, SpellingFault>
    ensures { IsRead (λ c. c) result (content_of word.now) }
{
    if word == b"-".as_slice() {
        return Ok(FileData::new(Vec::new(alloc)));
    }
    // A dash alone spells no bytes, and lower case alone the others.
    if !are_lower_digits(word) {
        return Err(SpellingFault::Bad);
    }
    match hex::decode(alloc, word) {
        Ok(bytes) => Ok(FileData::new(bytes)),
        Err(FromHexError::OutOfMemory) => Err(SpellingFault::Memory),
        Err(_) => Err(SpellingFault::Bad),
    }
}
