//! Laws of the table.
ghost use Rattle.std.specs.Prelude.{◌≡◌, ◌+◌, ℕ, List, Ok};
ghost use Rattle.sn_node_table.specs.Paths.{IsChain, path_of, path_up};
ghost use Rattle.sn_node_table.specs.Tables.{IsFresh, NoneIsIdled, Table, made, met, opened};

use crate::table::NodeTable;

/// A path consists of a node's first name, the first name of that name's directory, and so on up to the root.
///
/// Proved: A path has the first name of its node at its end, before that the first name of that name's directory, and so on from the
/// root.
pub fn paths_are_chains()
    ensures { (t : Table) (id : ℕ) (text : List ℕ) → path_of t id ≡ Ok text → (names : List (List ℕ)) × IsChain names t id × (text ≡ path_up names) }
{}

/// An object gets the next id, which is then incremented.
///
/// Proved, also of `NodeTable::next_ids_are_unused`: Each id that is given is the next id, which is then incremented, and no id
/// from the next one on has a node. So none is given twice.
pub fn ids_are_given_in_order()
    ensures { (t : Table) (parent : ℕ) (name : List ℕ) (inode : ℕ) → (made t parent name inode).next ≡ t.next + 1 }
{}

/// Calls that add something make no id idle.
///
/// Proved: `meet`, `make` and `open` make no id idle.
pub fn nothing_is_idled()
    ensures made { (t : Table) (parent : ℕ) (name : List ℕ) (inode : ℕ) → NoneIsIdled t (made t parent name inode) }
    ensures met { (t : Table) (parent : ℕ) (name : List ℕ) (inode : ℕ) → NoneIsIdled t (met t parent name inode) }
    ensures opened { (t : Table) (id : ℕ) → NoneIsIdled t (opened t id) }
{}

impl NodeTable {
    ghost use Rattle.sn_node_table.specs.Told.{table_of};

    /// No id from the next one on has a node.
    pub fn next_ids_are_unused(&self)
        ensures { IsFresh (table_of self.now).nodes (table_of self.now).next }
    {}
}
