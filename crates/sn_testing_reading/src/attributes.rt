//! Who owns a node, its S bits, its rights and its ACLs.

use crate::fields::Fields;
use crate::payload::Misspelling;

/// The bytes of an entry.
const ENTRY_SIZE: usize = 8;

/// The most entries of users and groups.
const NAMED: usize = 32;

/// The tags of entries, in their order.
#[derive(Clone, Copy, PartialEq, Eq)]
pub enum Tag {
    UserObj,
    User,
    GroupObj,
    Group,
    Mask,
    Other,
}

impl Tag {
    fn of(number: u8) -> Option<Tag> {
        match number {
            1 => Some(Tag::UserObj),
            2 => Some(Tag::User),
            3 => Some(Tag::GroupObj),
            4 => Some(Tag::Group),
            5 => Some(Tag::Mask),
            6 => Some(Tag::Other),
            _ => None,
        }
    }

    fn is_named(self) -> bool {
        matches!(self, Tag::User | Tag::Group)
    }

    fn is_object(self) -> bool {
        matches!(self, Tag::UserObj | Tag::GroupObj | Tag::Other)
    }
}

/// An entry of an ACL.
#[derive(Clone, Copy)]
pub struct Entry {
    pub tag: Tag,
    /// Read is 4, write 2, execute 1.
    pub rights: u8,
    /// Of a user or a group, or 0.
    pub number: u32,
}

impl Entry {
    /// The entry that eight bytes spell.
    pub fn read(bytes: &[u8]) -> Result<Entry, Misspelling> {
        let mut fields = Fields::new(bytes);
        let entry = Entry::read_from(&mut fields);
        fields.finish()?;
        Ok(entry)
    }

    fn read_from(fields: &mut Fields<'_>) -> Entry {
        let found = Tag::of(fields.read_u8());
        fields.test(found.is_some(), Misspelling::Entry);
        let tag = found.unwrap_or(Tag::Other);
        let rights = fields.read_u8();
        let zeros = fields.read_u16();
        let number = fields.read_u32();
        fields.test(rights <= 7, Misspelling::Entry);
        fields.test(zeros == 0, Misspelling::Entry);
        fields.test(number == 0 || tag.is_named(), Misspelling::Entry);
        Entry {
            tag,
            rights,
            number,
        }
    }

    fn precedes(self, next: Entry) -> bool {
        let (tag, next_tag) = (self.tag as u8, next.tag as u8);
        tag < next_tag || (tag == next_tag && self.number < next.number)
    }
}

/// How many entries of each sort a list has.
#[derive(Clone, Copy)]
struct Sorts {
    objects: usize,
    named: usize,
    masks: usize,
}

impl Sorts {
    /// Of entries in canonical order.
    fn of(list: &[u8]) -> Result<Sorts, Misspelling> {
        let mut sorts = Sorts {
            objects: 0,
            named: 0,
            masks: 0,
        };
        let mut before = None;
        for bytes in list.chunks_exact(ENTRY_SIZE) {
            let entry = Entry::read(bytes)?;
            if let Some(last) = before
                && !Entry::precedes(last, entry)
            {
                return Err(Misspelling::Order);
            }
            sorts.count(entry.tag);
            before = Some(entry);
        }
        Ok(sorts)
    }

    fn count(&mut self, tag: Tag) {
        if tag.is_object() {
            self.objects = self.objects.saturating_add(1);
        } else if tag.is_named() {
            self.named = self.named.saturating_add(1);
        } else {
            self.masks = self.masks.saturating_add(1);
        }
    }

    /// Whether these, and so many entries of the owner, the group and others, are a valid ACL.
    fn check(&self, objects: usize) -> Result<(), Misspelling> {
        if self.objects != objects {
            return Err(Misspelling::Objects);
        }
        if self.named > NAMED {
            return Err(Misspelling::ManyEntries);
        }
        if self.named > 0 && self.masks == 0 {
            return Err(Misspelling::NoMask);
        }
        Ok(())
    }
}

/// What a make and a setting of attributes give a node.
#[derive(Clone, Copy)]
pub struct Attributes<'a> {
    /// Bit 0 is S_ISGID, bit 1 S_ISVTX.
    pub special: u8,
    /// Of USER_OBJ times 64, of GROUP_OBJ times 8, of OTHER.
    pub rights: u16,
    pub owner: u32,
    pub group: u32,
    /// The entries USER, GROUP and MASK of the access ACL, eight bytes each.
    pub access: &'a [u8],
    /// The entries of the default ACL, eight bytes each; none where there is no such ACL.
    pub default: &'a [u8],
}

impl<'a> Attributes<'a> {
    /// Of the root directory of a new disk.
    pub fn of_root() -> Attributes<'a> {
        Attributes {
            special: 0,
            rights: 0o755,
            owner: 0,
            group: 0,
            access: &[],
            default: &[],
        }
    }

    pub(crate) fn read(fields: &mut Fields<'a>) -> Attributes<'a> {
        let special = fields.read_u8();
        fields.test(special <= 3, Misspelling::SpecialBits);
        let rights = fields.read_u16();
        fields.test(rights <= 0o777, Misspelling::Rights);
        let owner = fields.read_u32();
        let group = fields.read_u32();
        let (access, default) = read_lists(fields);
        Attributes {
            special,
            rights,
            owner,
            group,
            access,
            default,
        }
    }
}

/// The entries of the access ACL and of the default ACL, behind how many each has.
fn read_lists<'a>(fields: &mut Fields<'a>) -> (&'a [u8], &'a [u8]) {
    let access_count = usize::from(fields.read_u8());
    let default_count = usize::from(fields.read_u8());
    let access = fields.bytes(ENTRY_SIZE * access_count);
    let default = fields.bytes(ENTRY_SIZE * default_count);
    fields.test_list(access, 0);
    if default_count > 0 {
        fields.test_list(default, 3);
    }
    (access, default)
}

impl Fields<'_> {
    /// Tests a list, which has so many entries of the owner, the group and others.
    fn test_list(&mut self, list: &[u8], objects: usize) {
        if let Err(misspelling) = check_list(list, objects) {
            self.test(false, misspelling);
        }
    }
}

fn check_list(list: &[u8], objects: usize) -> Result<(), Misspelling> {
    Sorts::of(list)?.check(objects)
}
