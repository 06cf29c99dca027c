//! FORGET and BATCH_FORGET.
ghost use Rattle.std.specs.Prelude.{Ok};
ghost use Rattle.sn_plan.specs.Follows.{Does};
ghost use Rattle.sn_serve_looks.specs.Messages as messages;

use sn_fuse::Forgets;
use sn_plan::{FileSystem, Server};

/// FORGET: so many lookups of a node are forgotten. It has no answer.
///
/// Proved, also of `batch_forget`: FORGET and BATCH_FORGET subtract the lookups that they tell from each node, in their order, and call nothing.
pub fn forget<F: FileSystem>(server: &mut Server<F>, node: u64, lookups: u64)
    ensures { Does F.did server.old server.new (messages.forget node lookups) (Ok tt) }
{
    server.forget(node, lookups);
}

/// BATCH_FORGET: a FORGET of each node that it lists. It has no answer.
pub fn batch_forget<F: FileSystem>(server: &mut Server<F>, forgets: &Forgets<'_>)
    ensures { Does F.did server.old server.new (messages.batch_forget forgets.now) (Ok tt) }
{
    for index in 0..forgets.len() {
        let Some(one) = forgets.get(index) else {
            return;
        };
        forget(server, one.node, one.lookups);
    }
}
