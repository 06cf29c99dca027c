//! The payload of a record: one of seven changes.

use crate::attributes::Attributes;
use crate::fields::Fields;
use crate::tree::{Kind, Link};

/// What bytes lack to be a record.
#[derive(Clone, Copy, PartialEq, Eq)]
pub enum Misspelling {
    /// The number of records before it.
    Sequence,
    NoPayload,
    LongPayload,
    /// The half ends before the body does.
    NoRoom,
    /// The bytes behind the payload aren't zeros.
    Padding,
    UnknownChange,
    /// The bytes end before the last field does.
    CutOff,
    /// Bytes stand behind the last field.
    BytesLeft,
    Name,
    Kind,
    SpecialBits,
    Rights,
    /// An entry of an ACL.
    Entry,
    /// The order of entries.
    Order,
    /// Entries of the owner, the group or others, which stand in a default ACL alone.
    Objects,
    NoMask,
    ManyEntries,
    /// A write of no bytes.
    NoBytes,
}

/// What a record changes.
#[derive(Clone, Copy)]
pub enum Change<'a> {
    Make {
        link: Link<'a>,
        number: u16,
        kind: Kind,
        attributes: Attributes<'a>,
    },
    AddLink {
        link: Link<'a>,
        number: u16,
    },
    Remove {
        link: Link<'a>,
    },
    Rename {
        from: Link<'a>,
        to: Link<'a>,
    },
    Write {
        number: u16,
        offset: u64,
        count: u64,
    },
    SetSize {
        number: u16,
        size: u64,
    },
    SetAttributes {
        number: u16,
        attributes: Attributes<'a>,
    },
}

/// The seven changes.
#[derive(Clone, Copy, PartialEq, Eq)]
pub enum ChangeKind {
    Make,
    AddLink,
    Remove,
    Rename,
    Write,
    SetSize,
    SetAttributes,
}

fn read_name<'a>(fields: &mut Fields<'a>) -> &'a [u8] {
    let count = fields.read_u8();
    let name = fields.bytes(usize::from(count));
    fields.test(is_name(name), Misspelling::Name);
    name
}

fn is_name(name: &[u8]) -> bool {
    !matches!(name, [] | b"." | b"..")
        && name
            .iter()
            .all(|byte| 0x21 <= *byte && *byte <= 0x7e && *byte != b'/')
}

fn read_kind(fields: &mut Fields<'_>) -> Kind {
    match fields.read_u8() {
        1 => Kind::File,
        2 => Kind::Directory,
        _ => {
            fields.test(false, Misspelling::Kind);
            Kind::File
        }
    }
}

fn read_make<'a>(fields: &mut Fields<'a>) -> Change<'a> {
    let directory = fields.read_u16();
    let number = fields.read_u16();
    let kind = read_kind(fields);
    let attributes = Attributes::read(fields);
    let name = read_name(fields);
    Change::Make {
        link: Link { directory, name },
        number,
        kind,
        attributes,
    }
}

fn read_link<'a>(fields: &mut Fields<'a>) -> Change<'a> {
    let directory = fields.read_u16();
    let number = fields.read_u16();
    let name = read_name(fields);
    Change::AddLink {
        link: Link { directory, name },
        number,
    }
}

fn read_remove<'a>(fields: &mut Fields<'a>) -> Change<'a> {
    let directory = fields.read_u16();
    let name = read_name(fields);
    Change::Remove {
        link: Link { directory, name },
    }
}

fn read_rename<'a>(fields: &mut Fields<'a>) -> Change<'a> {
    let old_directory = fields.read_u16();
    let new_directory = fields.read_u16();
    let old_name = read_name(fields);
    let new_name = read_name(fields);
    Change::Rename {
        from: Link {
            directory: old_directory,
            name: old_name,
        },
        to: Link {
            directory: new_directory,
            name: new_name,
        },
    }
}

fn read_write<'a>(fields: &mut Fields<'a>) -> Change<'a> {
    let number = fields.read_u16();
    let offset = fields.read_u64();
    let written = fields.bytes(fields.rest().len());
    fields.test(!written.is_empty(), Misspelling::NoBytes);
    Change::Write {
        number,
        offset,
        count: written.len() as u64,
    }
}

fn read_size<'a>(fields: &mut Fields<'a>) -> Change<'a> {
    let number = fields.read_u16();
    let size = fields.read_u64();
    Change::SetSize { number, size }
}

fn read_attributes<'a>(fields: &mut Fields<'a>) -> Change<'a> {
    let number = fields.read_u16();
    let attributes = Attributes::read(fields);
    Change::SetAttributes { number, attributes }
}

/// The change of a kind, or none where no change has the number.
fn read_change<'a>(number: u8, fields: &mut Fields<'a>) -> Option<Change<'a>> {
    match number {
        1 => Some(read_make(fields)),
        2 => Some(read_link(fields)),
        3 => Some(read_remove(fields)),
        4 => Some(read_rename(fields)),
        5 => Some(read_write(fields)),
        6 => Some(read_size(fields)),
        7 => Some(read_attributes(fields)),
        _ => None,
    }
}

impl<'a> Change<'a> {
    /// The change that all of the bytes spell.
    pub fn read(payload: &'a [u8]) -> Result<Change<'a>, Misspelling> {
        let mut fields = Fields::new(payload);
        let number = fields.read_u8();
        let change = read_change(number, &mut fields);
        fields.finish()?;
        match change {
            None => Err(Misspelling::UnknownChange),
            Some(_) if !fields.rest().is_empty() => Err(Misspelling::BytesLeft),
            Some(change) => Ok(change),
        }
    }

    /// Which of the seven changes it is.
    pub fn kind(&self) -> ChangeKind {
        match self {
            Change::Make { .. } => ChangeKind::Make,
            Change::AddLink { .. } => ChangeKind::AddLink,
            Change::Remove { .. } => ChangeKind::Remove,
            Change::Rename { .. } => ChangeKind::Rename,
            Change::Write { .. } => ChangeKind::Write,
            Change::SetSize { .. } => ChangeKind::SetSize,
            Change::SetAttributes { .. } => ChangeKind::SetAttributes,
        }
    }
}
