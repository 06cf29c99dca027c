//! What is read of the tree, as the tests ask it.
ghost use Rattle.std.specs.Prelude.{◌≡◌, IsTrue, IfOk, IfErr, is_some};
ghost use Rattle.sn_applies.specs.Tests.{standing_of, file_names, losing, has_room};
ghost use Rattle.sn_model.specs.Changes.{directory_at, is_free_number};
ghost use Rattle.sn_walk.specs.Frame.{Leaves};

use crate::NamedTree;
use sn_limits::{Kind, Limits};
use sn_walk::ROOT_NUMBER;

// What is asked of a node: its kind, and how many names it has as a file. A directory has 1.
#[derive(Clone, Copy)]
pub(crate) struct Standing {
    pub kind: Kind,
    pub links: u16,
}

pub(crate) fn standing_of<T: NamedTree>(
    tree: &mut T,
    number: u16,
) -> Result<Option<Standing>, T::Fault>
    requires { T.holds tree.old }
    ensures left { Leaves T.holds T.follows T.is_told T.shows tree.old tree.new }
    ensures found { IsTrue T.is_told → IfOk result (λ s. s ≡ standing_of (T.shows tree.old) number) }
    ensures cause { IfErr result (λ f. T.causes tree.old tree.new f) }
{
    match tree.node(number) {
        Ok(Some(node)) => Ok(Some(Standing {
            kind: node.kind,
            links: node.links,
        })),
        Ok(None) => Ok(None),
        Err(fault) => Err(fault),
    }
}

// How many names a file has, if the number is one's.
pub(crate) fn file_names<T: NamedTree>(tree: &mut T, number: u16) -> Result<Option<u16>, T::Fault>
    requires { T.holds tree.old }
    ensures left { Leaves T.holds T.follows T.is_told T.shows tree.old tree.new }
    ensures found { IsTrue T.is_told → IfOk result (λ n. n ≡ file_names (T.shows tree.old) number) }
    ensures cause { IfErr result (λ f. T.causes tree.old tree.new f) }
{
    match standing_of(tree, number)? {
        Some(standing) if standing.kind == Kind::File => Ok(Some(standing.links)),
        _ => Ok(None),
    }
}

fn is_directory_at<T: NamedTree>(tree: &mut T, number: u16) -> Result<bool, T::Fault>
    requires { T.holds tree.old }
    ensures left { Leaves T.holds T.follows T.is_told T.shows tree.old tree.new }
    ensures found { IsTrue T.is_told → IfOk result (λ b. b ≡ is_some (directory_at (T.shows tree.old) number)) }
    ensures cause { IfErr result (λ f. T.causes tree.old tree.new f) }
{
    match standing_of(tree, number)? {
        Some(standing) => Ok(standing.kind == Kind::Directory),
        None => Ok(false),
    }
}

// Whether a new node can get the number: no node with a name has it.
pub(crate) fn is_free_number<T: NamedTree>(
    limits: &Limits,
    tree: &mut T,
    number: u16,
) -> Result<bool, T::Fault>
    requires { T.holds tree.old }
    ensures left { Leaves T.holds T.follows T.is_told T.shows tree.old tree.new }
    ensures found { IsTrue T.is_told → IfOk result (λ b. b ≡ is_free_number limits.now (T.shows tree.old) number) }
    ensures cause { IfErr result (λ f. T.causes tree.old tree.new f) }
{
    if number <= ROOT_NUMBER || number > limits.largest_number {
        return Ok(false);
    }
    match standing_of(tree, number)? {
        Some(standing) => Ok(standing.kind == Kind::File && standing.links == 0),
        None => Ok(true),
    }
}

// The kind of what can lose its name: a file, or a directory without names.
pub(crate) fn losing<T: NamedTree>(tree: &mut T, number: u16) -> Result<Option<Kind>, T::Fault>
    requires { T.holds tree.old }
    ensures left { Leaves T.holds T.follows T.is_told T.shows tree.old tree.new }
    ensures found { IsTrue T.is_told → IfOk result (λ k. k ≡ losing (T.shows tree.old) number) }
    ensures cause { IfErr result (λ f. T.causes tree.old tree.new f) }
{
    let Some(standing) = standing_of(tree, number)? else {
        return Ok(None);
    };
    match standing.kind {
        Kind::File => Ok(Some(Kind::File)),
        Kind::Directory => {
            let names = tree.names_in(number)?;
            Ok(if names == 0 {
                Some(Kind::Directory)
            } else {
                None
            })
        }
    }
}

// Whether a directory may get one more name, where so many of its names are removed first, and what has so many
// names may get one more.
pub(crate) fn has_room<T: NamedTree>(
    limits: &Limits,
    tree: &mut T,
    directory: u16,
    leaving: u32,
    links: u16,
) -> Result<bool, T::Fault>
    requires { T.holds tree.old }
    ensures left { Leaves T.holds T.follows T.is_told T.shows tree.old tree.new }
    ensures found { IsTrue T.is_told → IfOk result (λ b. b ≡ has_room limits.now (T.shows tree.old) directory leaving links) }
    ensures cause { IfErr result (λ f. T.causes tree.old tree.new f) }
{
    let is_directory = is_directory_at(tree, directory)?;
    let names = tree.names_in(directory)?;
    Ok(is_directory && names.saturating_sub(leaving) < limits.names && links < limits.links)
}
