//! Looks of a server.
ghost use Rattle.std.specs.Prelude.{Ok};
ghost use Rattle.sn_plan.specs.Asking.{counts, finds, sees};
ghost use Rattle.sn_plan.specs.Follows.{Does};

use crate::file_system::{FileSystem, Space};
use crate::server::Server;
use sn_fuse_replies::Errno;
use sn_walk::Attributes;

impl<F: FileSystem> Server<F> {
    /// The number of what a path leads user 0 to.
    pub fn find(&mut self, path: &[u8]) -> Result<Option<u64>, Errno>
        ensures { Does F.did self.old self.new (finds path.now) result }
    {
        match self.file_system.find(path) {
            Ok(found) => Ok(found),
            Err(fault) => Err(fault.errno()),
        }
    }

    /// How much room there is.
    pub fn space(&mut self) -> Space
        ensures { Does F.did self.old self.new counts (Ok result) }
    {
        self.file_system.space()
    }

    /// The attributes of the object with a number.
    pub fn node(&mut self, number: u64) -> Result<Option<Attributes>, Errno>
        ensures { Does F.did self.old self.new (sees number) result }
    {
        match self.file_system.node(number) {
            Ok(seen) => Ok(seen),
            Err(fault) => Err(fault.errno()),
        }
    }
}
