//! Objects that were found or made under a name.
ghost use Rattle.std.specs.Prelude.{◌≡◌};
ghost use Rattle.sn_plan.specs.Follows.{Does};
ghost use Rattle.sn_serve_names.specs.Entries as entries;

use crate::entries::entry_of;
use crate::names::Child;
use sn_callers::LOOKER;
use sn_fuse_replies::{Entry, Errno};
use sn_model::{Call, FileStatus};
use sn_node_table::NodeFault;
use sn_plan::{FileSystem, Server, status, word};
use sn_walk::Attributes;

/// The number of a node's object, as the mount shows it. `ESTALE` where the id has no node.
pub fn number_of<F: FileSystem>(server: &Server<F>, node: u64) -> Result<u64, Errno>
    ensures { Does F.did server.now server.now (entries.number_of node) result }
{
    server.nodes.inode(node).ok_or(Errno::ESTALE)
}

/// What a node's number tells. `ESTALE` where nothing has it any longer.
pub fn seen_at<F: FileSystem>(server: &mut Server<F>, node: u64) -> Result<Attributes, Errno>
    ensures { Does F.did server.old server.new (entries.seen_at node) result }
{
    let number = number_of(server, node)?;
    let seen = server.node(number)?;
    seen.ok_or(Errno::ESTALE)
}

/// The number of what is at a path. `ENOENT` where nothing is.
pub fn number_at<F: FileSystem>(server: &mut Server<F>, path: &[u8]) -> Result<u64, Errno>
    ensures { Does F.did server.old server.new (entries.number_at path.now) result }
{
    let found = server.find(path)?;
    found.ok_or(Errno::ENOENT)
}

/// What user 0 is told of what is at a path.
pub fn status_at<F: FileSystem>(server: &mut Server<F>, path: &[u8]) -> Result<FileStatus, Errno>
    ensures { Does F.did server.old server.new (entries.status_at path.now) result }
{
    let path = word(server.alloc, path)?;
    let reply = server.call(LOOKER, &Call::Stat { path });
    status(&reply)
}

/// `ESTALE` where the directory's id has no node, `ENOMEM` where memory is refused.
fn errno_of(fault: NodeFault) -> Errno
    ensures { result ≡ entries.node_errno fault }
{
    match fault {
        NodeFault::Stale => Errno::ESTALE,
        NodeFault::Refused => Errno::ENOMEM,
    }
}

/// The id of an object that was found under a name.
fn meet<F: FileSystem>(
    server: &mut Server<F>,
    parent: u64,
    name: &[u8],
    number: u64,
) -> Result<u64, Errno>
    ensures { Does F.did server.old server.new (entries.meets parent name.now number) result }
{
    match server.nodes.meet(parent, name, number) {
        Ok(id) => Ok(id),
        Err(fault) => Err(errno_of(fault)),
    }
}

/// A new id for an object that was made under a name.
fn make<F: FileSystem>(
    server: &mut Server<F>,
    parent: u64,
    name: &[u8],
    number: u64,
) -> Result<u64, Errno>
    ensures { Does F.did server.old server.new (entries.makes parent name.now number) result }
{
    match server.nodes.make(parent, name, number) {
        Ok(id) => Ok(id),
        Err(fault) => Err(errno_of(fault)),
    }
}

/// The answer for an object that was found under a name of a directory.
pub fn met_at<F: FileSystem>(
    server: &mut Server<F>,
    parent: u64,
    child: &Child,
    status: &FileStatus,
) -> Result<Entry, Errno>
    ensures { Does F.did server.old server.new (entries.met_at parent child.now status.now) result }
{
    let number = number_at(server, child.path())?;
    let id = meet(server, parent, child.name(), number)?;
    Ok(entry_of(id, number, status))
}

/// The answer for an object that was made under a name of a directory.
pub fn made_at<F: FileSystem>(
    server: &mut Server<F>,
    parent: u64,
    child: &Child,
) -> Result<Entry, Errno>
    ensures { Does F.did server.old server.new (entries.made_at parent child.now) result }
{
    let number = number_at(server, child.path())?;
    let status = status_at(server, child.path())?;
    let id = make(server, parent, child.name(), number)?;
    Ok(entry_of(id, number, &status))
}
