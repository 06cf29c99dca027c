//! Tests that ask nothing of the tree.
ghost use Rattle.std.specs.Prelude.{◌≡◌, ◌+◌, ◌&&◌, length, nat_lt, nat_le};
ghost use Rattle.sn_applies.specs.Tests.{is_name_in};
ghost use Rattle.sn_model.specs.Changes.{is_ownership};
ghost use Rattle.sn_model.specs.Tree.{link_to};
ghost use Rattle.sn_walk.specs.Views.{is_hidden_name};

use sn_limits::{Kind, Limits, is_name};
use sn_model::Ownership;
use sn_walk::ROOT_NUMBER;

// The name under which the root has the directory of snapshots.
fn is_hidden_name(directory: u16, name: &[u8]) -> bool
    ensures { result ≡ is_hidden_name directory name.now }
{
    directory == ROOT_NUMBER && name == b".snapshot".as_slice()
}

// Whether it is a name that a directory can have.
pub(crate) fn is_name_in(directory: u16, name: &[u8]) -> bool
    ensures { result ≡ is_name_in (link_to directory name.now) }
{
    is_name(name) && !is_hidden_name(directory, name)
}

// Whether a node of a kind can have this owner and these ACLs: a file has no default ACL.
pub(crate) fn is_ownership(kind: Kind, ownership: &Ownership) -> bool
    ensures { result ≡ is_ownership kind ownership.now }
{
    let _owner = ownership.owner;
    let _group = ownership.group;
    let _access = ownership.acl.entries();
    match &ownership.default_acl {
        None => true,
        Some(acl) => {
            let _default = acl.entries();
            kind == Kind::Directory
        }
    }
}

// Whether there are bytes, and they end within the largest file.
pub(crate) fn fits(limits: &Limits, offset: u64, bytes: &[u8]) -> bool
    ensures { result ≡ (nat_lt 0 (length bytes.now) && nat_le (offset + length bytes.now) limits.now.largest_file) }
{
    let size = bytes.len() as u64;
    size > 0 && size <= limits.largest_file && offset <= limits.largest_file - size
}
