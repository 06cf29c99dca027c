//! What a line says.
ghost use Rattle.std.specs.Prelude.{◌≡◌, ◌^◌, not, position, IfOk};
ghost use Rattle.std.specs.List.{before_first, after_first};
ghost use Rattle.std.specs.Option.{option_map};
ghost use Rattle.sn_words.specs.Reading.{number_below};
ghost use Rattle.sn_accounts.specs.Lines as lines;

use sn_words::SpellingFault;
use sn_words::field::number;
use std::alloc::AllocError;

// A byte that isspace() passes in the C locale.
fn is_blank(byte: u8) -> bool
    ensures { result ≡ lines.is_blank byte }
{
    matches!(byte, b' ' | 9..=13)
}

fn first_no_blank(line: &[u8]) -> Option<usize>
    ensures { result ≡ position (λ b. not (lines.is_blank b)) line.now }
{
    line.iter().position(|byte| !is_blank(*byte))
}

fn past_blanks(line: &[u8]) -> &[u8]
    ensures { result.now ≡ lines.past_blanks line.now }
{
    let blanks = first_no_blank(line).unwrap_or(line.len());
    &line[blanks..]
}

fn first_colon(line: &[u8]) -> Option<usize>
    ensures { result ≡ position lines.is_colon line.now }
{
    line.iter().position(|byte| *byte == b':')
}

// What is before the first colon, and what after it.
fn split_field(line: &[u8]) -> (&[u8], &[u8])
    ensures field { result.0.now ≡ before_first lines.is_colon line.now }
    ensures rest { result.1.now ≡ after_first lines.is_colon line.now }
{
    match first_colon(line) {
        Some(at) => (&line[..at], &line[at + 1..]),
        None => (line, &[]),
    }
}

fn begins_account(name: &[u8]) -> bool
    ensures { result ≡ lines.begins_account name.now }
{
    match name {
        [] => false,
        [first, ..] => !matches!(*first, b'#' | b'+' | b'-'),
    }
}

// The number that a field spells, if it spells one.
fn number_of(field: &[u8]) -> Result<Option<u32>, AllocError>
    ensures { IfOk result (λ n. n ≡ number_below (2 ^ 32) field.now) }
{
    match number(field) {
        Ok(number) => Ok(Some(number)),
        Err(SpellingFault::Bad) => Ok(None),
        Err(SpellingFault::Memory) => Err(AllocError),
    }
}

/// A user or a group.
#[derive(Drop)]
pub struct Account<'a> {
    pub name: &'a [u8],
    pub number: u32,
}

/// The account of a line, if it has one. An error is a want of memory.
#[tactic(auto, unfolding(crate::specs::Lines::account_of))]
pub fn account_of(line: &[u8]) -> Result<Option<Account<'_>>, AllocError>
    ensures { IfOk result (λ told. option_map (λ a. (a.name.now, a.number)) told ≡ lines.account_of line.now) }
{
    let (name, rest) = split_field(past_blanks(line));
    let (_password, rest) = split_field(rest);
    let (digits, _others) = split_field(rest);
    if !begins_account(name) {
        return Ok(None);
    }
    match number_of(digits)? {
        Some(number) => Ok(Some(Account { name, number })),
        None => Ok(None),
    }
}
