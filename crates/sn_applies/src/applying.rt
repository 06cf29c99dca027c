//! Whether a change can be applied.
ghost use Rattle.std.specs.Prelude.{◌≡◌, IsTrue, IfOk, IfErr, is_some};
ghost use Rattle.sn_model.specs.Changes.{apply, cut, owned, written};
ghost use Rattle.sn_model.specs.NameTree.{IsHierarchy};
ghost use Rattle.sn_walk.specs.Frame.{Leaves};

use crate::NamedTree;
use crate::moving::rename;
use crate::naming::{add_link, make, remove};
use crate::reads::{file_names, standing_of};
use crate::tests::{fits, is_ownership};
use sn_limits::Limits;
use sn_model::{Change, Ownership};

// Whether bytes can be written to a file: there are some, and they end within the largest file.
fn write<T: NamedTree>(
    limits: &Limits,
    tree: &mut T,
    number: u16,
    offset: u64,
    bytes: &[u8],
) -> Result<bool, T::Fault>
    requires { T.holds tree.old }
    ensures left { Leaves T.holds T.follows T.is_told T.shows tree.old tree.new }
    ensures found { IsTrue T.is_told → IfOk result (λ b. b ≡ is_some (written limits.now (T.shows tree.old) number offset bytes.now)) }
    ensures cause { IfErr result (λ f. T.causes tree.old tree.new f) }
{
    match file_names(tree, number)? {
        Some(_) => Ok(fits(limits, offset, bytes)),
        None => Ok(false),
    }
}

// Whether a file can be given a size.
fn set_size<T: NamedTree>(
    limits: &Limits,
    tree: &mut T,
    number: u16,
    size: u64,
) -> Result<bool, T::Fault>
    requires { T.holds tree.old }
    ensures left { Leaves T.holds T.follows T.is_told T.shows tree.old tree.new }
    ensures found { IsTrue T.is_told → IfOk result (λ b. b ≡ is_some (cut limits.now (T.shows tree.old) number size)) }
    ensures cause { IfErr result (λ f. T.causes tree.old tree.new f) }
{
    match file_names(tree, number)? {
        Some(_) => Ok(size <= limits.largest_file),
        None => Ok(false),
    }
}

// Whether a node can have this owner and these ACLs.
fn set_attributes<T: NamedTree>(
    tree: &mut T,
    number: u16,
    ownership: &Ownership,
) -> Result<bool, T::Fault>
    requires { T.holds tree.old }
    ensures left { Leaves T.holds T.follows T.is_told T.shows tree.old tree.new }
    ensures found { IsTrue T.is_told → IfOk result (λ b. b ≡ is_some (owned (T.shows tree.old) number ownership.now)) }
    ensures cause { IfErr result (λ f. T.causes tree.old tree.new f) }
{
    match standing_of(tree, number)? {
        Some(standing) => Ok(is_ownership(standing.kind, ownership)),
        None => Ok(false),
    }
}

/// Whether a change can be applied to a tree: the numbers that it names are there and of the right kind,
/// what it makes isn't taken, and the limits allow it. It reads no bytes of files and takes no memory.
///
/// The tree is one whose directories form a hierarchy, as every name tree; of another one the answer
/// says nothing. A fault is one of a look-up. Whatever the answer, the tree shows what it did.
///
/// Proved: The test is exact whether each of the seven changes can be applied to a tree that is read, where its directories
/// form a hierarchy.
/// Proved, also of `NamedTree`: The test looks up nodes and names, counts of names, and whether one directory is below
/// another: it reads no byte of a file, takes no memory, leaves what the tree shows, and fails with a look-up alone.
pub fn applies<T: NamedTree>(
    limits: &Limits,
    tree: &mut T,
    change: &Change<'_>,
) -> Result<bool, T::Fault>
    requires { T.holds tree.old }
    ensures left { Leaves T.holds T.follows T.is_told T.shows tree.old tree.new }
    ensures found { IsTrue T.is_told → IsHierarchy (T.shows tree.old) → IfOk result (λ b. b ≡ is_some (apply limits.now change.now (T.shows tree.old))) }
    ensures cause { IfErr result (λ f. T.causes tree.old tree.new f) }
{
    match change {
        Change::Make {
            directory,
            name,
            number,
            kind,
            ownership,
        } => make(
            limits,
            tree,
            *directory,
            name.as_slice(),
            *number,
            *kind,
            ownership,
        ),
        Change::AddLink {
            directory,
            name,
            number,
        } => add_link(limits, tree, *directory, name.as_slice(), *number),
        Change::Remove { directory, name } => remove(tree, *directory, name.as_slice()),
        Change::Rename {
            old_directory,
            old_name,
            new_directory,
            new_name,
        } => rename(
            limits,
            tree,
            *old_directory,
            old_name.as_slice(),
            *new_directory,
            new_name.as_slice(),
        ),
        Change::Write {
            number,
            offset,
            bytes,
        } => write(limits, tree, *number, *offset, bytes.as_slice()),
        Change::SetSize { number, size } => set_size(limits, tree, *number, *size),
        Change::SetAttributes { number, ownership } => set_attributes(tree, *number, ownership),
    }
}
