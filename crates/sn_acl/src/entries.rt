ghost use Rattle.std.specs.Prelude.{◌≡◌};
ghost use Rattle.sn_acl.specs.Entries.{is_user_obj, is_user, is_group_obj, is_mask, is_other, is_named, rank_of, qualifier_of, precedes};

use crate::{Mode, Permissions};
use std::fmt;

/// Whom an entry is for, as acl(5) names it. A qualifier is a user or group number.
#[derive(Clone, Copy, PartialEq, Eq, Hash)]
pub enum Tag {
    UserObj,
    User(u32),
    GroupObj,
    Group(u32),
    Mask,
    Other,
}

/// What an entry grants to the one that its tag names.
#[derive(Clone, Copy, PartialEq, Eq, Hash)]
pub struct Entry {
    pub tag: Tag,
    pub permissions: Permissions,
}

impl Entry {
    ghost use Rattle.sn_acl.specs.Modes.{entry_under};
    ghost use Rattle.sn_acl.specs.AccessList.{is_entry};
    ghost use Rattle.std.specs.Prelude.{◌≡◌, true};

    // The entry, whose numbers fit by its type.
    pub(crate) fn fitting(self) -> Entry
        ensures value { result ≡ self }
        ensures fits { is_entry self ≡ true }
    {
        self
    }

    /// What the entry is once the mode is set, in an ACL with a MASK or without one.
    pub(crate) fn under(self, mode: &Mode, masked: bool) -> Entry
        ensures { result ≡ entry_under mode.now masked self }
    {
        let permissions = match self.tag {
            Tag::UserObj => mode.owner,
            Tag::GroupObj if !masked => mode.group,
            Tag::Mask => mode.group,
            Tag::Other => mode.other,
            Tag::User(_) | Tag::GroupObj | Tag::Group(_) => self.permissions,
        };
        Entry {
            tag: self.tag,
            permissions,
        }
    }
}

impl Tag {
    /// Whether this is the entry of the owner.
    pub fn is_user_obj(self) -> bool
        ensures { result ≡ is_user_obj self }
    {
        matches!(self, Tag::UserObj)
    }

    /// Whether this is the entry of the user with this number.
    pub fn is_user(self, uid: u32) -> bool
        ensures { result ≡ is_user uid self }
    {
        match self {
            Tag::User(n) => n == uid,
            _ => false,
        }
    }

    /// Whether this is the entry of the object's group.
    pub fn is_group_obj(self) -> bool
        ensures { result ≡ is_group_obj self }
    {
        matches!(self, Tag::GroupObj)
    }

    /// Whether this is the entry that limits those of users and groups.
    pub fn is_mask(self) -> bool
        ensures { result ≡ is_mask self }
    {
        matches!(self, Tag::Mask)
    }

    /// Whether this is the entry of all others.
    pub fn is_other(self) -> bool
        ensures { result ≡ is_other self }
    {
        matches!(self, Tag::Other)
    }

    /// Whether the tag comes before another in canonical order.
    pub fn precedes(self, other: Tag) -> bool
        ensures { result ≡ precedes self other }
    {
        self.rank() < other.rank()
            || (self.rank() == other.rank() && self.qualifier() < other.qualifier())
    }

    fn rank(self) -> u8
        ensures { result ≡ rank_of self }
    {
        match self {
            Tag::UserObj => 0,
            Tag::User(_) => 1,
            Tag::GroupObj => 2,
            Tag::Group(_) => 3,
            Tag::Mask => 4,
            Tag::Other => 5,
        }
    }

    fn qualifier(self) -> u32
        ensures { result ≡ qualifier_of self }
    {
        match self {
            Tag::User(n) | Tag::Group(n) => n,
            _ => 0,
        }
    }

    /// Whether the tag has a qualifier.
    pub fn is_named(self) -> bool
        ensures { result ≡ is_named self }
    {
        matches!(self, Tag::User(_) | Tag::Group(_))
    }
}

impl Default for Tag {
    ghost use Rattle.std.specs.Prelude.{◌≡◌};
    ghost use Rattle.sn_acl.specs.declared.entries.Tag.TheVariants.{Other};

    ghost is_default = { λ t. t ≡ Other };

    fn default() -> Self {
        Tag::Other
    }
}

/// An entry that grants nothing.
impl Default for Entry {
    ghost use Rattle.std.specs.Prelude.{◌≡◌};
    ghost use Rattle.sn_acl.specs.declared.entries.Tag.TheVariants.{Other};

    ghost is_default = { λ e. e ≡ record { tag = Other; permissions = 0 } };

    fn default() -> Self {
        Entry {
            tag: Tag::Other,
            permissions: Permissions::default(),
        }
    }
}

/// The name of the entry, as where it denies an access.
impl fmt::Display for Tag {
    ghost use Rattle.std.specs.Prelude.{Some};
    ghost use Rattle.sn_acl.specs.Text.{tag_text};

    ghost output = { λ tag. Some (tag_text tag) };

    fn fmt<W: fmt::Write>(&self, f: &mut fmt::Formatter<W>) -> fmt::Result {
        match *self {
            Tag::UserObj => f.write_str("owner"),
            Tag::User(uid) => write!(f, "user:{uid}"),
            Tag::GroupObj => f.write_str("group"),
            Tag::Group(gid) => write!(f, "group:{gid}"),
            Tag::Mask => f.write_str("mask"),
            Tag::Other => f.write_str("other"),
        }
    }
}
