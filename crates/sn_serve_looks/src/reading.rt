//! GETXATTR and LISTXATTR.
ghost use Rattle.sn_plan.specs.Asking.{login_by};
ghost use Rattle.sn_plan.specs.Follows.{Does};
ghost use Rattle.sn_serve_looks.specs.Messages as messages;

use crate::acls::acl_of;
use crate::listing::names_of;
use crate::values::{Xattr, kind_there, sized, value_in};
use sn_fuse_replies::Errno;
use sn_plan::{Asker, FileSystem, Server};

/// GETXATTR: the value of an extended attribute, or for a size of 0 how many bytes it has. `ENODATA` where the node doesn't have it, and `ERANGE`
/// where it has more bytes than the size.
///
/// Proved: GETXATTR tells the node's ACL as its value, once who asks was told of the node, unless somebody has that open; an access ACL that says no
/// more than the mode, and what isn't an ACL, is no attribute.
pub fn getxattr<F: FileSystem>(
    server: &mut Server<F>,
    asker: &Asker<'_>,
    node: u64,
    name: &[u8],
    size: u32,
) -> Result<Xattr, Errno>
    ensures { Does F.did server.old server.new (messages.getxattr (login_by asker.now) node name.now size) result }
{
    let kind = kind_there(name)?;
    let acl = acl_of(server, asker, node, kind)?;
    value_in(kind, size, &acl)
}

/// LISTXATTR: the names of the extended attributes that a node has, each with a 0 after it, or for a size of 0 how many bytes they are. `ERANGE`
/// where they are more than the size.
///
/// Proved: LISTXATTR has the names of those ACLs that GETXATTR has a value of.
pub fn listxattr<F: FileSystem>(
    server: &mut Server<F>,
    asker: &Asker<'_>,
    node: u64,
    size: u32,
) -> Result<Xattr, Errno>
    ensures { Does F.did server.old server.new (messages.listxattr (login_by asker.now) node size) result }
{
    let names = names_of(server, asker, node)?;
    sized(size, names.as_slice())
}
