//! The table of a census.
ghost use Rattle.std.specs.Prelude.{◌≡◌, ◌≤◌, ◌++◌, ◌↔◌, List, drop, length, replicate, vec_len, slice_set, Some, IsTrue, IfOk};
ghost use Rattle.sn_limits.specs.declared.kind.Kind.TheVariants.{Directory};
ghost use Rattle.sn_census.specs.Climbs.{parents_of};
ghost use Rattle.sn_census.specs.Rows.{AreUnused, Sets, names_found, row_at, row_of, unused_row};
ghost use Rattle.sn_census.specs.declared.table.Row.{Row as TheRow};

use sn_layout_node::Inode;
use sn_limits::Kind;
use std::alloc::{AllocError, Global};
use std::marker::Model;

/// How many numbers there are, those that no node can have among them.
pub(crate) const NUMBERS: u32 = 65536;

/// The number of the root directory.
pub(crate) const ROOT: u16 = 2;

/// What is known of a number.
#[derive(Clone, Copy)]
pub struct Row {
    // The kind of its inode, `None` where no node has the number.
    pub(crate) kind: Option<Kind>,
    // How many names it is to have: as many as its inode says, and none if it has no inode or is the root
    // directory's.
    pub(crate) links: u16,
    // How many names were found, no more than that.
    pub(crate) names: u16,
    // The directory in which the last of them was found.
    pub(crate) parent: u16,
    // The directory from which the way up came through here, 0 where none did.
    pub(crate) climb: u16,
}

impl Row {
    // What is known of a number that no node has.
    pub(crate) fn unused() -> Self
        ensures { result ≡ unused_row }
    {
        Row {
            kind: None,
            links: 0,
            names: 0,
            parent: 0,
            climb: 0,
        }
    }

    // What is known of a number before names are counted.
    pub(crate) fn new(number: u16, inode: &Option<Inode>) -> Self
        ensures { result ≡ row_of number inode.now }
    {
        match inode {
            Some(inode) => Row {
                kind: Some(inode.kind),
                links: if number == ROOT { 0 } else { inode.links },
                names: 0,
                parent: 0,
                climb: 0,
            },
            None => Row::unused(),
        }
    }

    // Whether the number is a directory's.
    pub(crate) fn is_directory(&self) -> bool
        ensures { IsTrue result ↔ (self.now.kind ≡ Some Directory) }
    {
        match self.kind {
            Some(Kind::Directory) => true,
            Some(Kind::File) => false,
            None => false,
        }
    }
}

// Makes so many rows those of unused numbers, from the first on.
fn clear_rows(rows: &mut [Row], count: usize)
    requires { count ≤ length rows.old }
    ensures { rows.new ≡ replicate count unused_row ++ drop count rows.old }
{
    rows[..count].fill(Row::unused());
}

/// A table with a row for each number. It is taken once, and counts root after root.
#[derive(Drop)]
pub struct Census {
    rows: Vec<Row>,
    // The rows from this number on are those of unused numbers.
    used: usize,
}

impl Model for Census {
    ghost Value = { List TheRow };

    ghost view = { λ census. census.rows.items };

    ghost invariant = { λ census. (vec_len census.rows ≡ 65536) × ((census.used ≤ 65536) × AreUnused census.used census.rows.items) };
}

impl Census {
    /// A table that knows nothing yet. It takes all the memory that counting needs.
    pub fn new(alloc: Global) -> Result<Self, AllocError>
        ensures { IfOk result (λ census. census ≡ replicate 65536 unused_row) }
    {
        Ok(Census {
            rows: Vec::from_elem(alloc, Row::unused(), NUMBERS as usize)?,
            used: 0,
        })
    }

    /// How many names of a number were found. Once a root was counted, that is how many it has.
    pub fn names(&self, number: u16) -> u16
        ensures { result ≡ names_found self.now number }
    {
        self.row(number).names
    }

    /// The directory in which the last name of a number was found. Of one without names it says nothing.
    pub fn parent(&self, number: u16) -> u16
        ensures { result ≡ parents_of self.now number }
    {
        self.row(number).parent
    }

    // The number from which on all rows are those of unused numbers.
    pub(crate) fn used(&self) -> usize
        ensures few { result ≤ 65536 }
        ensures rest { AreUnused result self.now }
    {
        self.used
    }

    // Makes each row that of an unused number.
    pub(crate) fn clear(&mut self)
        ensures { AreUnused 0 self.new }
    {
        clear_rows(self.rows.as_mut_slice(), self.used);
        self.used = 0;
    }

    // The row of a number.
    pub(crate) fn row(&self, number: u16) -> Row
        ensures row { result ≡ row_at self.now number }
        ensures size { length self.now ≡ 65536 }
    {
        self.rows[number as usize]
    }

    // Sets the row of a number.
    pub(crate) fn set_row(&mut self, number: u16, row: Row)
        ensures rows { self.new ≡ slice_set self.old number row }
        ensures set { Sets number row self.old self.new }
        ensures size { length self.old ≡ 65536 }
    {
        self.rows[number as usize] = row;
        self.used = self.used.max(number as usize + 1);
    }
}
