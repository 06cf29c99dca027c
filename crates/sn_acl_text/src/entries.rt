ghost use Rattle.std.specs.Prelude.{◌≡◌, ℕ, List};

use sn_acl::Permissions;
use std::marker::Model;

/// The name of a user or a group, lent. Seen as its bytes.
#[derive(Drop)]
pub struct Name<'a> {
    bytes: &'a [u8],
}

impl<'a> Model for Name<'a> {
    ghost Value = { List ℕ };

    ghost view = { λ name. name.bytes.now };
}

impl<'a> Name<'a> {
    /// Lends these bytes.
    pub(crate) fn new(bytes: &'a [u8]) -> Self
        ensures { result ≡ bytes.now }
    {
        Name { bytes }
    }

    /// The bytes.
    pub fn as_bytes(&self) -> &'a [u8]
        ensures { result.now ≡ self.now }
    {
        self.bytes
    }
}

/// A user or a group, as a text gives it.
#[derive(Drop)]
pub enum Qualifier<'a> {
    Number(u32),
    /// A name, whose number the text doesn't give.
    Name(Name<'a>),
}

/// Whom an entry of a text is for, as acl(5) names it.
#[derive(Drop)]
pub enum Whom<'a> {
    UserObj,
    User(Qualifier<'a>),
    GroupObj,
    Group(Qualifier<'a>),
    Mask,
    Other,
}

impl Default for Whom<'_> {
    ghost use Rattle.std.specs.Prelude.{◌≡◌};
    ghost use Rattle.sn_acl_text.specs.declared.entries.Whom.TheVariants.{Other};

    ghost is_default = { λ whom. whom ≡ Other };

    fn default() -> Self {
        Whom::Other
    }
}

/// An entry of a text. That of others, which grants nothing, where none is given.
#[derive(Default, Drop)]
pub struct TextEntry<'a> {
    pub whom: Whom<'a>,
    pub permissions: Permissions,
}
