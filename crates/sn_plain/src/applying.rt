ghost use Rattle.std.specs.Prelude.{◌≡◌, IfOk};
ghost use Rattle.sn_model.specs.Changes.{apply, linked, removed, renamed};
ghost use Rattle.sn_model.specs.NameTree.{IsTree};
ghost use Rattle.sn_model.specs.Tree.{link_to};
ghost use Rattle.sn_limits.specs.declared.limits.Limits.{Limits};

use crate::fault::ApplyError;
use crate::tree::PlainTree;
use sn_limits::Limits;
use sn_model::{Bytes, Change, Link, Word};
use std::alloc::{AllocError, Global};

/// A name of a directory, to be looked up or kept.
fn owned_link(alloc: Global, directory: u16, name: &Bytes<'_>) -> Result<Link, AllocError>
    ensures { IfOk result (λ link. link ≡ link_to directory name.now) }
{
    let name = Word::new(alloc, name.as_slice())?;
    Ok(Link { directory, name })
}

impl PlainTree {
    ghost use Rattle.sn_plain.specs.Plain.{tree_of, Applies};

    fn add_name(
        &mut self,
        alloc: Global,
        limits: &Limits,
        directory: u16,
        name: &Bytes<'_>,
        number: u16,
    ) -> Result<(), ApplyError>
        ensures { Applies result (linked limits.now (tree_of self.old) (link_to directory name.now) number) (tree_of self.old) (tree_of self.new) }
    {
        let link = owned_link(alloc, directory, name)?;
        self.add_link(limits, link, number)
    }

    fn remove_name(
        &mut self,
        alloc: Global,
        directory: u16,
        name: &Bytes<'_>,
    ) -> Result<(), ApplyError>
        requires { (l : Limits) × IsTree l (tree_of self.old) }
        ensures { Applies result (removed (tree_of self.old) (link_to directory name.now)) (tree_of self.old) (tree_of self.new) }
    {
        let link = owned_link(alloc, directory, name)?;
        self.remove(&link)
    }

    fn rename_name(
        &mut self,
        alloc: Global,
        limits: &Limits,
        old_directory: u16,
        old_name: &Bytes<'_>,
        new_directory: u16,
        new_name: &Bytes<'_>,
    ) -> Result<(), ApplyError>
        requires { (l : Limits) × IsTree l (tree_of self.old) }
        ensures { Applies result (renamed limits.now (tree_of self.old) (link_to old_directory old_name.now) (link_to new_directory new_name.now)) (tree_of self.old) (tree_of self.new) }
    {
        let old = owned_link(alloc, old_directory, old_name)?;
        let new = owned_link(alloc, new_directory, new_name)?;
        self.rename(limits, &old, new)
    }

    /// Makes a change of the tree, as replay and a logged call need it: rights were looked at when it
    /// was decided. All memory is taken before anything is changed.
    ///
    /// Proved, also of `make`, `add_link`, `remove`, `rename`, `write`, `set_size` and `set_attributes`: Each of the seven
    /// changes that can be logged turns the tree into the one that the model gives, exactly where the model gives one;
    /// otherwise, and where memory is refused, the tree is unchanged, and `CannotApply` says that the model gives none.
    pub fn apply(
        &mut self,
        alloc: Global,
        limits: &Limits,
        change: &Change<'_>,
    ) -> Result<(), ApplyError>
        requires { (l : Limits) × IsTree l (tree_of self.old) }
        ensures { Applies result (apply limits.now change.now (tree_of self.old)) (tree_of self.old) (tree_of self.new) }
    {
        match change {
            Change::Make {
                directory,
                name,
                number,
                kind,
                ownership,
            } => {
                let link = owned_link(alloc, *directory, name)?;
                self.make(alloc, limits, link, *number, *kind, ownership)
            }
            Change::AddLink {
                directory,
                name,
                number,
            } => self.add_name(alloc, limits, *directory, name, *number),
            Change::Remove { directory, name } => self.remove_name(alloc, *directory, name),
            Change::Rename {
                old_directory,
                old_name,
                new_directory,
                new_name,
            } => self.rename_name(
                alloc,
                limits,
                *old_directory,
                old_name,
                *new_directory,
                new_name,
            ),
            Change::Write {
                number,
                offset,
                bytes,
            } => self.write(alloc, limits, *number, *offset, bytes.as_slice()),
            Change::SetSize { number, size } => self.set_size(limits, *number, *size),
            Change::SetAttributes { number, ownership } => {
                self.set_attributes(alloc, *number, ownership)
            }
        }
    }
}
