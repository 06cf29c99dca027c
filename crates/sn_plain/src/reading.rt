ghost use Rattle.std.specs.Prelude.{◌≡◌, IfOk, length, take, drop};
ghost use Rattle.std.specs.FinMap as map;
ghost use Rattle.std.specs.Option.{option_map};
ghost use Rattle.sn_model.specs.FileCalls.{bytes_of};
ghost use Rattle.sn_model.specs.Seen.{names_of};

use crate::tree::PlainTree;
use sn_model::Names;
use std::alloc::{AllocError, Global};

impl PlainTree {
    ghost use Rattle.sn_plain.specs.Plain.{tree_of};

    /// How many bytes a node has: none of a directory, or of a number without a node.
    pub fn size(&self, number: u16) -> u64
        ensures { result ≡ length (bytes_of (map.get (tree_of self.now).nodes number)) }
    {
        match self.nodes.get(number) {
            None => 0,
            Some(node) => node.bytes.size(),
        }
    }

    /// The bytes of a node from an offset on, at most so many: none behind the end, and none of a
    /// directory.
    pub fn read(
        &self,
        alloc: Global,
        number: u16,
        offset: u64,
        count: usize,
    ) -> Result<Option<Vec<u8>>, AllocError>
        ensures { IfOk result (λ read. option_map (λ bytes. bytes.items) read ≡ option_map (λ node. take count (drop offset node.bytes)) (map.get (tree_of self.now).nodes number)) }
    {
        match self.nodes.get(number) {
            None => Ok(None),
            Some(node) => Ok(Some(node.bytes.read(alloc, offset, count)?)),
        }
    }

    /// The names of a directory, in the order of their bytes: none where it has none, or isn't there.
    ///
    /// Proved: A listing is exactly the names of its directory, in their order.
    pub fn names(&self, alloc: Global, directory: u16) -> Result<Names, AllocError>
        ensures { IfOk result (λ names. names ≡ names_of (tree_of self.now) directory) }
    {
        Ok(Names::new(self.links.names(alloc, directory)?))
    }
}
