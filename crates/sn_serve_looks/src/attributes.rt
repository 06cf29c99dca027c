//! GETATTR.
ghost use Rattle.sn_plan.specs.Asking.{login_by};
ghost use Rattle.sn_plan.specs.Follows.{Does};
ghost use Rattle.sn_serve_looks.specs.Messages as messages;

use crate::telling::status_of;
use sn_fuse_replies::{Attributes, Errno};
use sn_plan::{Asker, FileSystem, Server};
use sn_serve_names::{attributes_of, number_of};

/// GETATTR: what a node is like. Of one that somebody has open anybody is told; of one to which no name leads too.
///
/// Proved: GETATTR is one stat by a path that was looked at: as who asks, or as user 0 where somebody has the node open; without a path it is a look
/// by the node's number.
pub fn getattr<F: FileSystem>(
    server: &mut Server<F>,
    asker: &Asker<'_>,
    node: u64,
) -> Result<Attributes, Errno>
    ensures { Does F.did server.old server.new (messages.getattr (login_by asker.now) node) result }
{
    let status = status_of(server, asker, node)?;
    let number = number_of(server, node)?;
    Ok(attributes_of(number, &status))
}
