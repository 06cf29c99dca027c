//! The names and the values of extended attributes.
ghost use Rattle.std.specs.Prelude.{◌≡◌, ◌≤◌, length};
ghost use Rattle.sn_serve_looks.specs.Xattrs as xattrs;

use arrayvec::ArrayVec;
use sn_acl::Acl;
use sn_acl_xattr::{LONGEST_VALUE, encode};
use sn_fuse_replies::Errno;
use sn_model::AclKind;

/// The bytes of a value or of a list of names: 292 at the most.
pub type XattrBytes = ArrayVec<u8, LONGEST_VALUE>;

/// What GETXATTR and LISTXATTR are answered.
#[derive(Drop)]
pub enum Xattr {
    Bytes(XattrBytes),
    /// How many bytes there are, where no room was given for them.
    Size(u32),
}

/// How many entries an ACL has that says no more than the mode.
const PLAIN_ENTRIES: usize = 3;

/// Which ACL an attribute is. `None` where it is neither.
fn kind_of(name: &[u8]) -> Option<AclKind>
    ensures { result ≡ xattrs.kind_of name.now }
{
    if name == b"system.posix_acl_access".as_slice() {
        Some(AclKind::Access)
    } else if name == b"system.posix_acl_default".as_slice() {
        Some(AclKind::Default)
    } else {
        None
    }
}

/// Which ACL is asked for. `ENODATA` for another attribute: no node has it.
pub(crate) fn kind_there(name: &[u8]) -> Result<AclKind, Errno>
    ensures { result ≡ xattrs.kind_there name.now }
{
    kind_of(name).ok_or(Errno::ENODATA)
}

/// Which ACL is to be set. `EOPNOTSUPP` for another attribute.
pub(crate) fn kind_to_set(name: &[u8]) -> Result<AclKind, Errno>
    ensures { result ≡ xattrs.kind_to_set name.now }
{
    kind_of(name).ok_or(Errno::EOPNOTSUPP)
}

/// Whether an ACL says more than the mode, as each default ACL does.
fn says_more(kind: AclKind, acl: &Acl) -> bool
    ensures { result ≡ xattrs.says_more kind acl.now }
{
    match kind {
        AclKind::Access => acl.entries().len() != PLAIN_ENTRIES,
        AclKind::Default => true,
    }
}

/// Whether an attribute has a value.
pub(crate) fn has_value(kind: AclKind, acl: &Option<Acl>) -> bool
    ensures { result ≡ xattrs.has_value kind acl.now }
{
    match acl {
        None => false,
        Some(acl) => says_more(kind, acl),
    }
}

fn kept(bytes: &[u8]) -> XattrBytes
    requires { length bytes.now ≤ 292 }
    ensures { result.items ≡ bytes.now }
{
    let mut kept = ArrayVec::new();
    kept.try_extend_from_slice(bytes).unwrap();
    kept
}

/// The bytes, for which there is so much room, or their size where that is 0. `ERANGE` where they don't fit.
pub(crate) fn sized(size: u32, bytes: &[u8]) -> Result<Xattr, Errno>
    requires { length bytes.now ≤ 292 }
    ensures { result ≡ xattrs.sized size bytes.now }
{
    if size == 0 {
        return Ok(Xattr::Size(bytes.len() as u32));
    }
    if bytes.len() > size as usize {
        return Err(Errno::ERANGE);
    }
    Ok(Xattr::Bytes(kept(bytes)))
}

/// The value of an attribute. `ENODATA` where it has none, and `ERANGE` as `sized`.
pub(crate) fn value_in(kind: AclKind, size: u32, acl: &Option<Acl>) -> Result<Xattr, Errno>
    ensures { result ≡ xattrs.value_in kind size acl.now }
{
    let Some(acl) = acl else {
        return Err(Errno::ENODATA);
    };
    if !says_more(kind, acl) {
        return Err(Errno::ENODATA);
    }
    sized(size, encode(acl).as_slice())
}

/// The names of the attributes that are there, each with the 0 that ends it.
pub(crate) fn names_text(access: bool, default: bool) -> XattrBytes
    ensures { result.items ≡ xattrs.names_text access default }
{
    match (access, default) {
        (true, true) => kept(b"system.posix_acl_access\0system.posix_acl_default\0"),
        (true, false) => kept(b"system.posix_acl_access\0"),
        (false, true) => kept(b"system.posix_acl_default\0"),
        (false, false) => ArrayVec::new(),
    }
}
