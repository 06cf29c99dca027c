//! What a node is like already of what a SETATTR sets.
ghost use Rattle.std.specs.Prelude.{◌≡◌};
ghost use Rattle.sn_serve_setattr.specs.Flags as bits;

use bitflags::Flags;
use sn_fuse::NewAttributes;
use sn_fuse_flags::AttributeFlags;
use sn_fuse_replies::Attributes;

/// How many modes S_ISGID, S_ISVTX and the permission bits make.
const MODES: u32 = 2048;

/// S_ISGID of <sys/stat.h>.
const SET_GID: u32 = 1024;

/// How many numbers the live tree has. Those of other trees are higher.
const LIVE: u64 = 65_536;

/// Whether a node is in the live tree.
pub(crate) fn is_live(there: &Attributes) -> bool
    ensures { result ≡ bits.is_live there.now }
{
    there.number < LIVE
}

/// Whether a user may set what only an owner and user 0 may.
pub(crate) fn is_owner(user: u32, there: &Attributes) -> bool
    ensures { result ≡ bits.is_owner user there.now }
{
    user == 0 || user == there.user
}

/// Whether chown and chmod would be done, and clear no S_ISGID.
fn keeps_all(user: u32, there: &Attributes) -> bool
    ensures { result ≡ bits.keeps_all user there.now }
{
    is_live(there) && is_owner(user, there) && (user == 0 || there.mode & SET_GID != SET_GID)
}

fn same_user(there: &Attributes, new: &NewAttributes) -> bool
    ensures { result ≡ bits.same_user there.now new.now }
{
    !new.flags.contains(AttributeFlags::USER) || new.user == there.user
}

fn same_group(there: &Attributes, new: &NewAttributes) -> bool
    ensures { result ≡ bits.same_group there.now new.now }
{
    !new.flags.contains(AttributeFlags::GROUP) || new.group == there.group
}

/// Whether a chown by this user would be done, and leave all as it is.
pub(crate) fn has_owner(user: u32, there: &Attributes, new: &NewAttributes) -> bool
    ensures { result ≡ bits.has_owner user there.now new.now }
{
    keeps_all(user, there) && same_user(there, new) && same_group(there, new)
}

/// Whether a chmod by this user would be done, and leave all as it is.
pub(crate) fn has_mode(user: u32, there: &Attributes, new: &NewAttributes) -> bool
    ensures { result ≡ bits.has_mode user there.now new.now }
{
    keeps_all(user, there) && new.mode % MODES == there.mode % MODES
}
