//! One entry of a listing.
ghost use Rattle.std.specs.Prelude.{◌≡◌, ℕ, IsTrue, IfOk, IfErr};
ghost use Rattle.sn_fuse_replies.specs.declared.errno.Errno.TheVariants.{ENOMEM};
ghost use Rattle.sn_limits.specs.Names as names;
ghost use Rattle.sn_plan.specs.Follows.{Does, kept_of, text_of};
ghost use Rattle.sn_serve_directories.specs.Entries as entries;

use sn_fuse_replies::{EntryKind, Errno};
use sn_host_names::to_host;
use sn_limits::{Kind, is_name};
use sn_listings::HeldEntry;
use sn_node_table::{NoPath, PathText};
use sn_plan::{FileSystem, Server};
use sn_serve_names::{number_at, status_at};
use std::alloc::Global;

/// What FUSE tells where a number isn't known.
const NO_NUMBER: u64 = 0xffff_ffff;

fn kind_of(kind: Kind) -> EntryKind
    ensures { result ≡ entries.kind_of kind }
{
    match kind {
        Kind::Directory => EntryKind::Directory,
        Kind::File => EntryKind::File,
    }
}

/// What is held for a name of the image: the name of the mount that it denotes. `ENOMEM` where memory is refused.
fn held(alloc: Global, number: u64, kind: EntryKind, name: &[u8]) -> Result<HeldEntry, Errno>
    requires { IsTrue (names.is_name name.now) }
    ensures entry { IfOk result (λ held. entries.image_of held ≡ record { number = number; kind = kind; name = name.now }) }
    ensures err { IfErr result (λ e. e ≡ ENOMEM) }
{
    let host = to_host(name);
    HeldEntry::new(alloc, number, kind, host.as_slice()).or(Err(Errno::ENOMEM))
}

/// The entry of a name that has this path.
fn known_entry<F: FileSystem>(
    server: &mut Server<F>,
    name: &[u8],
    path: &[u8],
) -> Result<HeldEntry, Errno>
    requires { IsTrue (names.is_name name.now) }
    ensures { Does F.did server.old server.new (entries.known_entry name.now path.now) (entries.image_in result) }
{
    let status = status_at(server, path)?;
    let number = number_at(server, path)?;
    held(server.alloc, number, kind_of(status.kind), name)
}

/// The path of a name of a directory. `None` where it has over 1,023 bytes.
fn child_of<F: FileSystem>(
    server: &Server<F>,
    node: u64,
    name: &[u8],
) -> Result<Option<PathText>, Errno>
    ensures { text_of result ≡ entries.child_of node name.now (kept_of server.now) }
{
    match server.nodes.child_path(node, name) {
        Ok(path) => Ok(Some(path)),
        Err(NoPath::TooLong) => Ok(None),
        Err(NoPath::Stale) => Err(Errno::ESTALE),
    }
}

/// The entry of a name of a directory. Of one whose path is too long for a call nothing is known.
fn named_entry<F: FileSystem>(
    server: &mut Server<F>,
    node: u64,
    name: &[u8],
) -> Result<HeldEntry, Errno>
    requires { IsTrue (names.is_name name.now) }
    ensures { Does F.did server.old server.new (entries.named_entry node name.now) (entries.image_in result) }
{
    let place = child_of(server, node, name)?;
    match place {
        Some(path) => known_entry(server, name, path.as_slice()),
        None => held(server.alloc, NO_NUMBER, EntryKind::File, name),
    }
}

/// The same, or `EIO` where no directory can have that name.
pub(crate) fn entry_at<F: FileSystem>(
    server: &mut Server<F>,
    node: u64,
    name: &[u8],
) -> Result<HeldEntry, Errno>
    ensures { Does F.did server.old server.new (entries.entry_at node name.now) (entries.image_in result) }
{
    if is_name(name) {
        named_entry(server, node, name)
    } else {
        Err(Errno::EIO)
    }
}
