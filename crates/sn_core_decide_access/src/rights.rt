//! The tests that only these calls have.
ghost use Rattle.std.specs.Prelude.{◌≡◌};
ghost use Rattle.sn_model.specs.AccessCalls as calls;

use sn_acl::Cred;
use sn_core_decide_rules::forbidden;
use sn_limits::Kind;
use sn_model::{AclKind, Errno, PathNumber, Refusal, Rule};
use sn_walk::{Attributes, Found};

/// Only the owner of an object and the user 0 set its mode, owner, group and ACLs: EPERM by `not-owner`
/// otherwise, at the object's place.
pub(crate) fn by_owner(cred: &Cred, which: PathNumber, found: &Found) -> Result<(), Refusal>
    ensures { result ≡ calls.by_owner cred.now which found.now }
{
    let uid = cred.uid();
    if uid == 0 || uid == found.attributes.owner {
        return Ok(());
    }
    Err(forbidden(which, found.place, Rule::NotOwner))
}

/// Only the user 0 gives an object to another user: EPERM by `not-root` otherwise, at the object's place.
pub(crate) fn to_owner(
    cred: &Cred,
    which: PathNumber,
    found: &Found,
    uid: Option<u32>,
) -> Result<(), Refusal>
    ensures { result ≡ calls.to_owner cred.now which found.now uid }
{
    let owner = found.attributes.owner;
    if cred.uid() == 0 || uid.unwrap_or(owner) == owner {
        return Ok(());
    }
    Err(forbidden(which, found.place, Rule::NotRoot))
}

/// Only the user 0 gives an object to another group that it isn't in: EPERM by `not-member` otherwise, at
/// the object's place.
pub(crate) fn to_group(
    cred: &Cred,
    which: PathNumber,
    found: &Found,
    gid: Option<u32>,
) -> Result<(), Refusal>
    ensures { result ≡ calls.to_group cred.now which found.now gid }
{
    let old = found.attributes.group;
    let new = gid.unwrap_or(old);
    if cred.uid() == 0 || new == old || cred.is_member(new) {
        return Ok(());
    }
    Err(forbidden(which, found.place, Rule::NotMember))
}

/// A default ACL is that of a directory: EINVAL for one of a file.
pub(crate) fn has_acl(kind: AclKind, a: &Attributes) -> Result<(), Refusal>
    ensures { result ≡ calls.has_acl kind a.now }
{
    match (kind, a.kind) {
        (AclKind::Default, Kind::File) => Err(Refusal::plain(Errno::Einval)),
        _ => Ok(()),
    }
}
