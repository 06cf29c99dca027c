//! What a message is about.
ghost use Rattle.std.specs.Prelude.{◌≡◌};
ghost use Rattle.sn_plan.specs.Follows.{kept_of};
ghost use Rattle.sn_serve.specs.Dating as dating;

use sn_fuse::Op;
use sn_plan::Server;
use sn_serve_names::image_of;

/// The objects that a message is about, by their numbers, before it is done. `None` where the table of nodes knows none.
#[derive(Clone, Copy, PartialEq, Eq, Debug)]
pub struct Subjects {
    /// That of the head's node, or of an open file.
    pub node: Option<u64>,
    /// What a name of it leads to, or what gets one more name.
    pub child: Option<u64>,
    /// The other directory of a rename.
    pub directory: Option<u64>,
    /// What has the new name of a rename.
    pub replaced: Option<u64>,
}

fn alone(node: Option<u64>) -> Subjects
    ensures { result ≡ dating.alone node }
{
    Subjects {
        node,
        child: None,
        directory: None,
        replaced: None,
    }
}

fn of_file<F>(server: &Server<F>, handle: u64) -> Option<u64>
    ensures { result ≡ dating.file_number (kept_of server.now) handle }
{
    let file = server.files.get(handle)?;
    server.nodes.inode(file.node)
}

fn of_name<F>(server: &Server<F>, parent: u64, name: &[u8]) -> Option<u64>
    ensures { result ≡ dating.child_number (kept_of server.now) parent name.now }
{
    let Ok(image) = image_of(name) else {
        return None;
    };
    let id = server.nodes.named(parent, image.as_slice())?;
    server.nodes.inode(id)
}

fn with_name<F>(server: &Server<F>, node: u64, name: &[u8]) -> Subjects
    ensures { result ≡ dating.with_name (kept_of server.now) node name.now }
{
    Subjects {
        child: of_name(server, node, name),
        ..alone(server.nodes.inode(node))
    }
}

fn of_rename<F>(
    server: &Server<F>,
    node: u64,
    name: &[u8],
    directory: u64,
    other: &[u8],
) -> Subjects
    ensures { result ≡ dating.of_rename (kept_of server.now) node name.now directory other.now }
{
    Subjects {
        directory: server.nodes.inode(directory),
        replaced: of_name(server, directory, other),
        ..with_name(server, node, name)
    }
}

/// What a message on a node is about.
pub(crate) fn subjects_of<F>(server: &Server<F>, node: u64, op: &Op<'_>) -> Subjects
    ensures { result ≡ dating.subjects_of (kept_of server.now) node op.now }
{
    match op {
        Op::Write { handle, .. } => alone(of_file(server, *handle)),
        Op::Create { name, .. } | Op::Unlink { name } | Op::Rmdir { name } => {
            with_name(server, node, name.as_bytes())
        }
        Op::Rename {
            directory,
            old_name,
            new_name,
        }
        | Op::Rename2 {
            directory,
            old_name,
            new_name,
            ..
        } => of_rename(
            server,
            node,
            old_name.as_bytes(),
            *directory,
            new_name.as_bytes(),
        ),
        Op::Link { node: old, .. } => Subjects {
            child: server.nodes.inode(*old),
            ..alone(server.nodes.inode(node))
        },
        _ => alone(server.nodes.inode(node)),
    }
}
