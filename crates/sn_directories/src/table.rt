//! The table of directories.
ghost use Rattle.std.specs.Prelude.{◌≡◌, ◌<◌, ℕ, List, replicate, vec_len, None, Some, IfOk};
ghost use Rattle.std.specs.FinMap as fin;
ghost use Rattle.sn_limits.specs.declared.kind.Kind.TheVariants.{Directory};
ghost use Rattle.sn_limits.specs.Versions.{limits_written};
ghost use Rattle.sn_model.specs.Changes.{is_at_or_below, put_link, take_link};
ghost use Rattle.sn_model.specs.NameTree.{HasKind, IsTree};
ghost use Rattle.sn_model.specs.Tree.{Tree, names_for, names_in};
ghost use Rattle.sn_model.specs.declared.link.Link.{Link};
ghost use Rattle.sn_directories.specs.Told.{Sets, SetsNames, SetsParent, TellsDirectories, counted_at, nothing_counted};
ghost use Rattle.sn_directories.specs.declared.table.Counted.{Counted as TheCounted};

use sn_walk::ROOT_NUMBER;
use std::alloc::{AllocError, Global};
use std::marker::Model;

/// How many numbers there are, those that no node can have among them.
const NUMBERS: usize = 65536;

/// More than there are names in any tree.
const STEPS: u32 = u32::MAX;

/// What is known of a number besides its node.
#[derive(Clone, Copy)]
pub struct Counted {
    // How many names there are in the directory, none in a file.
    names: u32,
    // The directory that a directory is in. Of the root, of a file and of an unused number it says nothing.
    parent: u16,
}

impl Counted {
    // Nothing is counted.
    const NONE: Counted = Counted {
        names: 0,
        parent: 0,
    };
}

/// How many names each directory of a tree has, and which directory each is in. It is taken once, and changed
/// in place.
#[derive(Drop)]
pub struct Directories {
    rows: Vec<Counted>,
}

impl Model for Directories {
    ghost Value = { List TheCounted };

    ghost view = { λ directories. directories.rows.items };

    ghost invariant = { λ directories. vec_len directories.rows ≡ 65536 };
}

impl Directories {
    /// A table of no names. It takes all the memory that it will ever need.
    pub fn new(alloc: Global) -> Result<Self, AllocError>
        ensures { IfOk result (λ directories. directories ≡ replicate 65536 nothing_counted) }
    {
        Ok(Directories {
            rows: Vec::from_elem(alloc, Counted::NONE, NUMBERS)?,
        })
    }

    // What is known of a number.
    fn get(&self, number: u16) -> Counted
        ensures { result ≡ counted_at self.now number }
    {
        self.rows[number as usize]
    }

    // Sets what is known of a number.
    fn set(&mut self, number: u16, counted: Counted)
        ensures { Sets number counted self.old self.new }
    {
        self.rows[number as usize] = counted;
    }

    /// How many names there are in a directory.
    pub fn names_in(&self, directory: u16) -> u32
        ensures { result ≡ (counted_at self.now directory).names }
    {
        self.get(directory).names
    }

    /// Says how many names there are in a directory.
    pub fn set_names(&mut self, directory: u16, names: u32)
        ensures { SetsNames directory names self.old self.new }
    {
        let counted = self.get(directory);
        self.set(directory, Counted { names, ..counted });
    }

    /// Says which directory a directory is in.
    pub fn set_parent(&mut self, number: u16, parent: u16)
        ensures { SetsParent number parent self.old self.new }
    {
        let counted = self.get(number);
        self.set(number, Counted { parent, ..counted });
    }

    /// A number gets a name in a directory, and has no other one if it is a directory's.
    ///
    /// Proved, also of `Directories::lose`: A table that has the directories of a tree still has them where a name is added or
    /// removed.
    pub fn gain(&mut self, directory: u16, number: u16)
        ensures { (tree : Tree) (link : Link) → TellsDirectories tree self.old → link.directory ≡ directory → fin.get tree.links link ≡ None
            → names_in tree directory < 65535 → (HasKind tree number Directory → names_for tree number ≡ 0)
            → TellsDirectories (put_link tree link number) self.new }
    {
        let names = self.names_in(directory);
        self.set_names(directory, names.saturating_add(1));
        self.set_parent(number, directory);
    }

    /// A directory loses a name.
    pub fn lose(&mut self, directory: u16)
        ensures { (tree : Tree) (link : Link) (number : ℕ) → TellsDirectories tree self.old → link.directory ≡ directory → fin.get tree.links link ≡ Some number
            → TellsDirectories (take_link tree link) self.new }
    {
        let names = self.names_in(directory);
        self.set_names(directory, names.saturating_sub(1));
    }

    /// Whether a directory is another one, or is below it. It goes up by the directories that they are in.
    ///
    /// Proved: Whether a directory is another one or below it is as the model has it, of a name tree, and found in no more
    /// steps than such a tree has names.
    pub fn is_at_or_below(&self, top: u16, directory: u16) -> bool
        ensures { (tree : Tree) → IsTree limits_written tree → TellsDirectories tree self.now → HasKind tree directory Directory
            → result ≡ is_at_or_below tree top directory }
    {
        let mut current = directory;
        for step in 0..STEPS {
            if current == top {
                return true;
            }
            if current == ROOT_NUMBER {
                return false;
            }
            current = self.get(current).parent;
        }
        false
    }
}
