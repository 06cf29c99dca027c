//! Removal of the nodes that nothing holds.
ghost use Rattle.std.specs.Prelude.{◌≡◌, ◌≢◌, ◌<◌, ◌≤◌, ◌↔◌, ◌⊎◌, ℕ, IsTrue, OnSome, Some};
ghost use Rattle.std.specs.FinMap as map;
ghost use Rattle.sn_node_table.specs.Tables.{Goes, IsIdleAt, links_of, without};

use crate::links::Links;
use crate::node::StoredNode;
use crate::table::{NodeTable, ROOT_ID};

impl NodeTable {
    ghost use Rattle.sn_node_table.specs.Told.{table_of};

    /// Whether nothing holds an id.
    fn is_idle(&self, id: u64) -> bool
        ensures { IsTrue result ↔ IsIdleAt (table_of self.now) id }
    {
        match self.nodes.get(id) {
            Some(node) => id != ROOT_ID && node.is_idle(),
            None => false,
        }
    }

    ghost use Rattle.sn_node_table.specs.Stored.{links_in};

    /// Removes an id, and returns the names that led to it.
    fn take_out(&mut self, id: u64) -> Links
        ensures table { table_of self.new ≡ without (table_of self.old) id }
        ensures links { links_in result ≡ links_of (map.get (table_of self.old).nodes id) }
    {
        let Some(node) = self.nodes.remove(id) else {
            return Links::Empty;
        };
        let StoredNode { inode, links, .. } = node;
        if self.current.get(inode) == Some(id) {
            self.current.remove(inode);
        }
        self.nodes.unhook(&links);
        links
    }

    /// Removes an id that nothing holds, and those that only it held, except for one, which it returns: so a deep tree needs no deep
    /// stack.
    #[cycle(sweep)]
    fn sweep_one(&mut self, id: u64) -> Option<u64>
        ensures goes { Goes (table_of self.old) (table_of self.new) }
        ensures idle { (other : ℕ) → IsIdleAt (table_of self.new) other → (IsIdleAt (table_of self.old) other × (other ≢ id)) ⊎ (result ≡ Some other) }
        ensures fewer { OnSome result (map.len (table_of self.new).nodes < map.len (table_of self.old).nodes) }
        ensures no_more { map.len (table_of self.new).nodes ≤ map.len (table_of self.old).nodes }
    {
        if !self.is_idle(id) {
            return None;
        }
        let mut links = self.take_out(id);
        let left = links.pop()?;
        while let Some(link) = links.pop() {
            self.sweep(link.parent);
        }
        Some(left.parent)
    }

    /// Removes an id that nothing holds, and those that only it held.
    #[cycle(sweep)]
    pub(crate) fn sweep(&mut self, id: u64)
        ensures goes { Goes (table_of self.old) (table_of self.new) }
        ensures idle { (other : ℕ) → IsIdleAt (table_of self.new) other → IsIdleAt (table_of self.old) other × (other ≢ id) }
        ensures no_more { map.len (table_of self.new).nodes ≤ map.len (table_of self.old).nodes }
    {
        let mut next = Some(id);
        while let Some(at) = next {
            next = self.sweep_one(at);
        }
    }
}
