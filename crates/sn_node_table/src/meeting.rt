//! How objects get ids.
ghost use Rattle.std.specs.Prelude.{◌≡◌, ◌+◌, false, Err, is_none, is_some, true, IfOk, IfErr, OnOk, OnErr};
ghost use Rattle.std.specs.FinMap as map;
ghost use Rattle.sn_node_table.specs.Tables.{Table, added, given, made, met, node_at};
ghost use Rattle.sn_node_table.specs.declared.meeting.NodeFault.TheVariants.{Refused, Stale};

use crate::node::StoredNode;
use crate::table::NodeTable;
use std::alloc::AllocError;

/// Why an object got no id.
#[derive(Clone, Copy, Debug, PartialEq, Eq)]
pub enum NodeFault {
    /// The id of the directory isn't known or isn't current.
    Stale,
    /// Memory was refused, or all ids were given.
    Refused,
}

impl From<AllocError> for NodeFault {
    ghost from_gives = { λ refused fault. fault ≡ Refused };

    fn from(_refused: AllocError) -> NodeFault {
        NodeFault::Refused
    }
}

impl NodeTable {
    ghost use Rattle.sn_node_table.specs.Told.{table_of};

    /// Gives an object the next id. Returns its earlier one.
    fn add(&mut self, inode: u64) -> Result<Option<u64>, AllocError>
        ensures ok { OnOk result (table_of self.new ≡ added (table_of self.old) inode) }
        ensures old { IfOk result (λ old. old ≡ map.get (table_of self.old).current inode) }
        ensures unused { is_some (map.get (table_of self.old).nodes (table_of self.old).next) ≡ false }
        ensures err { OnErr result (table_of self.new ≡ table_of self.old) }
    {
        let id = self.next;
        if id == u64::MAX {
            return Err(AllocError);
        }
        self.nodes.insert(self.alloc, id, StoredNode::new(inode))?;
        match self.current.insert(inode, id) {
            Ok(old) => {
                self.next = id + 1;
                Ok(old)
            }
            Err(refused) => {
                self.nodes.remove(id);
                Err(refused)
            }
        }
    }

    /// Undoes an `add`, given the new id and the earlier one. It allocates nothing.
    fn undo_add(&mut self, id: u64, inode: u64, old: Option<u64>)
        requires { (table_of self.old).next ≡ id + 1 }
        ensures { (t : Table) → table_of self.old ≡ added t inode → old ≡ map.get t.current inode → id ≡ t.next → is_some (map.get t.nodes t.next) ≡ false
            → table_of self.new ≡ t }
    {
        self.nodes.remove(id);
        self.current.put_back(inode, old);
        self.next = id;
    }

    /// Gives an object a new id and a name.
    fn give(&mut self, parent: u64, name: &[u8], inode: u64) -> Result<u64, AllocError>
        ensures ok { OnOk result (table_of self.new ≡ made (table_of self.old) parent name.now inode) }
        ensures id { IfOk result (λ id. id ≡ (table_of self.old).next) }
        ensures err { OnErr result (table_of self.new ≡ table_of self.old) }
    {
        let id = self.next;
        let old = self.add(inode)?;
        match self.link(parent, name, id) {
            Ok(()) => Ok(id),
            Err(refused) => {
                self.undo_add(id, inode, old);
                Err(refused)
            }
        }
    }

    /// Adds an object that was made under a name of a directory, looked up once. It gets a new id, and the id of an earlier object
    /// with this number becomes stale.
    ///
    /// Proved: An object that is made gets the next id, and the id of an earlier object with its number becomes stale.
    pub fn make(&mut self, parent: u64, name: &[u8], inode: u64) -> Result<u64, NodeFault>
        ensures ok { OnOk result (table_of self.new ≡ made (table_of self.old) parent name.now inode) }
        ensures id { IfOk result (λ id. id ≡ (table_of self.old).next) }
        ensures stale { is_none (node_at (table_of self.old) parent) ≡ true → result ≡ Err Stale }
        ensures refused { is_some (node_at (table_of self.old) parent) ≡ true → IfErr result (λ fault. fault ≡ Refused) }
        ensures err { OnErr result (table_of self.new ≡ table_of self.old) }
    {
        if self.node(parent).is_none() {
            return Err(NodeFault::Stale);
        }
        Ok(self.give(parent, name, inode)?)
    }

    /// Counts a lookup that found an object under a name of a directory. Returns the object's current id, or a new one.
    ///
    /// Proved: An object that is found under a name has its current id, or gets the next one, with one more lookup; the name leads
    /// to that id and no other. Where the directory's id is stale or unknown the result is `Stale`, and where memory is refused
    /// the table is unchanged.
    pub fn meet(&mut self, parent: u64, name: &[u8], inode: u64) -> Result<u64, NodeFault>
        ensures ok { OnOk result (table_of self.new ≡ met (table_of self.old) parent name.now inode) }
        ensures id { IfOk result (λ id. id ≡ given (table_of self.old) inode) }
        ensures stale { is_none (node_at (table_of self.old) parent) ≡ true → result ≡ Err Stale }
        ensures refused { is_some (node_at (table_of self.old) parent) ≡ true → IfErr result (λ fault. fault ≡ Refused) }
        ensures err { OnErr result (table_of self.new ≡ table_of self.old) }
    {
        if self.node(parent).is_none() {
            return Err(NodeFault::Stale);
        }
        match self.current.get(inode) {
            Some(id) => {
                self.link(parent, name, id)?;
                self.count_lookup(id);
                Ok(id)
            }
            None => Ok(self.give(parent, name, inode)?),
        }
    }
}
