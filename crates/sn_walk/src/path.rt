ghost use Rattle.std.specs.Prelude.{◌≡◌, ◌≤◌, ◌<◌, [], ◌∷◌, length, MatchResult, MatchOption, Ok, Err};
ghost use Rattle.std.specs.Option.{option_copied};
ghost use Rattle.std.specs.List.{list_all};
ghost use Rattle.sn_limits.specs.Names.{is_name_spelled, has_name_length};
ghost use Rattle.sn_walk.specs.Paths.{parsed, of_names, pieces, pieces_of, last_of};

use crate::PathFault;
use sn_limits::{has_name_length, is_name_spelled};
use std::marker::Model;

/// The most bytes of a path.
pub const PATH_MAX: usize = 1023;

/// A path from the root: its names in order, none for `/`. It borrows the word that it was read from.
#[derive(Drop)]
pub struct Path<'a> {
    /// The names with a slash between each two, where there is a name.
    text: Option<&'a [u8]>,
}

impl<'a> Model for Path<'a> {
    ghost use Rattle.std.specs.Prelude.{ℕ, List, IsTrue, ◌≤◌, length};
    ghost use Rattle.std.specs.Option.{option_copied};
    ghost use Rattle.std.specs.List.{list_all};
    ghost use Rattle.sn_limits.specs.Names.{is_name};
    ghost use Rattle.sn_walk.specs.Paths.{pieces_of};

    ghost Value = { List (List ℕ) };

    ghost view = { λ p. pieces_of (option_copied p.text) };

    ghost invariant = { λ p. IsTrue (list_all is_name (pieces_of (option_copied p.text))) × (length (pieces_of (option_copied p.text)) ≤ 1023) };
}

impl<'a> Path<'a> {
    /// Reads a path. The word's length is looked at first, and the length of a name last.
    ///
    /// Proved: A word is a path, or is refused, exactly by the grammar.
    pub fn parse(word: &'a [u8]) -> Result<Path<'a>, PathFault>
        ensures { MatchResult result (λ p. parsed word.now ≡ Ok p) (λ e. parsed word.now ≡ Err e) }
    {
        if word.len() > PATH_MAX {
            return Err(PathFault::TooLong);
        }
        match word {
            [b'/'] => Ok(Path { text: None }),
            [b'/', text @ ..] => Path::of_names(text),
            _ => Err(PathFault::Misspelt),
        }
    }

    /// The path of the names in a text that isn't empty.
    fn of_names(text: &'a [u8]) -> Result<Path<'a>, PathFault>
        requires { length text.now < 1023 }
        ensures { MatchResult result (λ p. of_names (pieces text.now) ≡ Ok p) (λ e. of_names (pieces text.now) ≡ Err e) }
    {
        if !are_spelled(text) {
            return Err(PathFault::Misspelt);
        }
        if !have_length(text) {
            return Err(PathFault::TooLong);
        }
        Ok(Path { text: Some(text) })
    }

    /// The first name, and the path of the names after it.
    pub fn split_first(&self) -> Option<(&'a [u8], Path<'a>)>
        ensures names { MatchOption result (self.now ≡ []) (λ r. self.now ≡ r.0.now ∷ r.1) }
        ensures few { length self.now ≤ 1023 }
    {
        let text = self.text?;
        let (name, rest) = first_piece(text);
        Some((name, Path { text: rest }))
    }

    /// The last name. `/` has none.
    pub fn last(&self) -> Option<&'a [u8]>
        ensures { option_copied result ≡ last_of self.now }
    {
        let (mut name, mut rest) = self.split_first()?;
        while let Some((next, more)) = rest.split_first() {
            name = next;
            rest = more;
        }
        Some(name)
    }
}

/// What precedes the first slash, and what follows it, where there is a slash.
fn first_piece(text: &[u8]) -> (&[u8], Option<&[u8]>)
    ensures { pieces text.now ≡ result.0.now ∷ pieces_of (option_copied result.1) }
{
    match text.iter().position(|byte| *byte == b'/') {
        Some(at) => (&text[..at], Some(&text[at + 1..])),
        None => (text, None),
    }
}

/// Whether each piece is spelled as a name.
fn are_spelled(text: &[u8]) -> bool
    ensures { result ≡ list_all is_name_spelled (pieces text.now) }
{
    text.split(|byte| *byte == b'/')
        .all(|name| is_name_spelled(name))
}

/// Whether no piece is longer than a name.
fn have_length(text: &[u8]) -> bool
    ensures { result ≡ list_all has_name_length (pieces text.now) }
{
    text.split(|byte| *byte == b'/')
        .all(|name| has_name_length(name))
}
