//! One entry of a text.
ghost use Rattle.std.specs.Prelude.{◌≡◌, ◌==◌, ◌&&◌, length, position};
ghost use Rattle.std.specs.List.{list_all};
ghost use Rattle.sn_acl_text.specs.Reading as reading;
ghost use Rattle.sn_acl_text.specs.Reading.{before, after, fields_of, number_of, qualifier_of, is_blank, rights_of, rights_said, plain, whom_of, entry_said};

use crate::entries::{Name, Qualifier, TextEntry, Whom};
use sn_acl::Permissions;
use std::marker::Model;

/// The fields of an entry, lent.
#[derive(Drop)]
struct Fields<'a> {
    kind: &'a [u8],
    qualifier: &'a [u8],
    rights: &'a [u8],
    number: &'a [u8],
}

impl<'a> Model for Fields<'a> {
    ghost use Rattle.sn_acl_text.specs.Reading.{Fields};

    ghost Value = { Fields };

    ghost view = { λ f. record { kind = f.kind.now; qualifier = f.qualifier.now; rights = f.rights.now; number = f.number.now } };
}

fn place(text: &[u8], byte: u8) -> Option<usize>
    ensures { result ≡ position (λ b. b == byte) text.now }
{
    text.iter().position(|b| *b == byte)
}

// What is before the first such byte, or all, and what is after it, or nothing.
pub fn cut(text: &[u8], byte: u8) -> (&[u8], &[u8])
    ensures front { result.0.now ≡ before byte text.now }
    ensures back { result.1.now ≡ after byte text.now }
{
    match place(text, byte) {
        Some(at) => (&text[..at], &text[at + 1..]),
        None => (text, &[]),
    }
}

fn split_fields(text: &[u8]) -> Fields<'_>
    ensures { result ≡ fields_of text.now }
{
    let (kind, rest) = cut(text, b':');
    let (qualifier, rest) = cut(rest, b':');
    let (rights, number) = cut(rest, b':');
    Fields {
        kind,
        qualifier,
        rights,
        number,
    }
}

fn number(digits: &[u8]) -> Option<u32>
    ensures { result ≡ number_of digits.now }
{
    let number = sn_pax::number(digits)?;
    u32::try_from(number).ok()
}

fn number_or_name(text: &[u8]) -> Qualifier<'_>
    ensures { result ≡ reading.number_or_name text.now (number_of text.now) }
{
    match number(text) {
        Some(number) => Qualifier::Number(number),
        None => Qualifier::Name(Name::new(text)),
    }
}

impl<'a> Fields<'a> {
    // The user or the group.
    fn qualifier(&self) -> Option<Qualifier<'a>>
        ensures { result ≡ qualifier_of self.now }
    {
        if self.number.is_empty() {
            return Some(number_or_name(self.qualifier));
        }
        match number(self.number) {
            Some(number) => Some(Qualifier::Number(number)),
            None => None,
        }
    }

    // Whether nobody is given.
    fn is_plain(&self) -> bool
        ensures { result ≡ ((length self.now.qualifier == 0) && (length self.now.number == 0)) }
    {
        self.qualifier.is_empty() && self.number.is_empty()
    }
}

fn is_word(word: &[u8], long: &[u8], short: &[u8]) -> bool
    ensures { result ≡ reading.is_word word.now long.now short.now }
{
    word == long || word == short
}

impl<'a> Fields<'a> {
    // An entry that has no qualifier.
    fn plain(&self, whom: Whom<'a>) -> Option<Whom<'a>>
        ensures { result ≡ plain whom.entry self.now }
    {
        if self.is_plain() { Some(whom) } else { None }
    }

    // An entry of the object's own user, or of the user that is given.
    fn user(&self) -> Option<Whom<'a>>
        ensures { result ≡ reading.own_or Whom.UserObj Whom.User self.now }
    {
        if self.qualifier.is_empty() {
            return self.plain(Whom::UserObj);
        }
        match self.qualifier() {
            Some(user) => Some(Whom::User(user)),
            None => None,
        }
    }

    // An entry of the object's own group, or of the group that is given.
    fn group(&self) -> Option<Whom<'a>>
        ensures { result ≡ reading.own_or Whom.GroupObj Whom.Group self.now }
    {
        if self.qualifier.is_empty() {
            return self.plain(Whom::GroupObj);
        }
        match self.qualifier() {
            Some(group) => Some(Whom::Group(group)),
            None => None,
        }
    }

    // Whom the entry is for.
    fn whom(&self) -> Option<Whom<'a>>
        ensures { result ≡ whom_of self.now }
    {
        if is_word(self.kind, b"user", b"u") {
            self.user()
        } else if is_word(self.kind, b"group", b"g") {
            self.group()
        } else if is_word(self.kind, b"mask", b"m") {
            self.plain(Whom::Mask)
        } else if is_word(self.kind, b"other", b"o") {
            self.plain(Whom::Other)
        } else {
            None
        }
    }
}

fn are_blanks(bytes: &[u8]) -> bool
    ensures { result ≡ list_all is_blank bytes.now }
{
    bytes.iter().all(|byte| *byte == b' ' || *byte == b'\t')
}

fn letters(text: &[u8]) -> Option<Permissions>
    ensures { result ≡ rights_of text.now }
{
    Permissions::parse(text)
}

fn rights(field: &[u8]) -> Option<Permissions>
    ensures { result ≡ rights_said field.now }
{
    let (first, rest) = field.split_at(field.len().min(3));
    if are_blanks(rest) {
        letters(first)
    } else {
        None
    }
}

/// The entry that a text without a comment says.
pub fn parse_entry(text: &[u8]) -> Option<TextEntry<'_>>
    ensures { result ≡ entry_said text.now }
{
    let fields = split_fields(text);
    let whom = fields.whom()?;
    let permissions = rights(fields.rights)?;
    Some(TextEntry { whom, permissions })
}
