//! Names of a mount as names of the image.
ghost use Rattle.std.specs.Prelude.{◌≡◌, MatchResult, Ok, Err};
ghost use Rattle.sn_plan.specs.Follows.{Does, kept_of};
ghost use Rattle.sn_serve_names.specs.Names as names;

use arrayvec::ArrayVec;
use sn_fuse_replies::Errno;
use sn_host_names::{is_host_name, to_image};
use sn_limits::NAME_MAX;
use sn_node_table::PathText;
use sn_plan::{FileSystem, Server};
use std::marker::Model;

/// The number of the directory of snapshots, as the mount shows it.
const SNAPSHOTS: u64 = 65_537;

/// A name of a directory, for calls and for the table of nodes. Whether something has it isn't said.
#[derive(Drop)]
pub struct Child {
    name: ArrayVec<u8, NAME_MAX>,
    path: PathText,
}

impl Model for Child {
    ghost use Rattle.sn_serve_names.specs.Names.{NamedPath};

    ghost Value = { NamedPath };

    ghost view = { λ child. record { name = child.name.items; path = child.path.items } };
}

impl Child {
    /// The name of the image.
    pub fn name(&self) -> &[u8]
        ensures { result.now ≡ self.now.name }
    {
        self.name.as_slice()
    }

    /// The path that it has.
    pub fn path(&self) -> &[u8]
        ensures { result.now ≡ self.now.path }
    {
        self.path.as_slice()
    }
}

/// The name of the image that denotes a name of the mount. `EINVAL` where no directory can have that name, and `ENAMETOOLONG` where the
/// image's has over 255 bytes.
pub fn image_of(name: &[u8]) -> Result<ArrayVec<u8, NAME_MAX>, Errno>
    ensures { MatchResult result (λ image. names.image_of name.now ≡ Ok image.items) (λ e. names.image_of name.now ≡ Err e) }
{
    if !is_host_name(name) {
        return Err(Errno::EINVAL);
    }
    to_image(name).ok_or(Errno::ENAMETOOLONG)
}

/// A name of a directory, whose own path is looked at. `EINVAL` where no directory can have that name; `ENAMETOOLONG` where that of the image
/// has over 255 bytes, or the path over 1,023; `ESTALE` where the id has no node, or no name leads to it.
pub fn child_of<F: FileSystem>(
    server: &mut Server<F>,
    parent: u64,
    name: &[u8],
) -> Result<Child, Errno>
    ensures { Does F.did server.old server.new (names.child_of parent name.now) result }
{
    let name = image_of(name)?;
    let path = server.child(parent, name.as_slice())?;
    Ok(Child { name, path })
}

/// Whether an id is that of the directory of snapshots.
pub fn is_snapshots<F: FileSystem>(server: &Server<F>, id: u64) -> bool
    ensures { result ≡ names.is_snapshots id (kept_of server.now) }
{
    server.nodes.inode(id) == Some(SNAPSHOTS)
}
