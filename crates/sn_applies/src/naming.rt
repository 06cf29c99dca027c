//! Whether a name can be made or removed.
ghost use Rattle.std.specs.Prelude.{◌≡◌, IsTrue, IfOk, IfErr, is_some};
ghost use Rattle.sn_applies.specs.Tests.{can_get, losing};
ghost use Rattle.sn_model.specs.Changes.{linked, made, removed};
ghost use Rattle.sn_model.specs.NameTree.{IsHierarchy};
ghost use Rattle.sn_model.specs.Tree.{link_to};
ghost use Rattle.sn_walk.specs.Frame.{Leaves};

use crate::NamedTree;
use crate::reads::{file_names, has_room, is_free_number, losing};
use crate::tests::{is_name_in, is_ownership};
use sn_limits::{Kind, Limits};
use sn_model::Ownership;

// Whether what has so many names can get a name: its directory can have it, doesn't yet, and both have
// room.
fn can_get<T: NamedTree>(
    limits: &Limits,
    tree: &mut T,
    directory: u16,
    name: &[u8],
    links: u16,
) -> Result<bool, T::Fault>
    requires { T.holds tree.old }
    ensures left { Leaves T.holds T.follows T.is_told T.shows tree.old tree.new }
    ensures found { IsTrue T.is_told → IfOk result (λ b. b ≡ can_get limits.now (T.shows tree.old) (link_to directory name.now) links) }
    ensures cause { IfErr result (λ f. T.causes tree.old tree.new f) }
{
    if !is_name_in(directory, name) {
        return Ok(false);
    }
    let number = tree.number(directory, name)?;
    let has_room = has_room(limits, tree, directory, 0, links)?;
    Ok(number.is_none() && has_room)
}

/// Whether a file or a directory can be made under a name. A file without names that has the number
/// is replaced.
pub(crate) fn make<T: NamedTree>(
    limits: &Limits,
    tree: &mut T,
    directory: u16,
    name: &[u8],
    number: u16,
    kind: Kind,
    ownership: &Ownership,
) -> Result<bool, T::Fault>
    requires { T.holds tree.old }
    ensures left { Leaves T.holds T.follows T.is_told T.shows tree.old tree.new }
    ensures found { IsTrue T.is_told → IsHierarchy (T.shows tree.old) → IfOk result (λ b. b ≡ is_some (made limits.now (T.shows tree.old) (link_to directory name.now) number kind ownership.now)) }
    ensures cause { IfErr result (λ f. T.causes tree.old tree.new f) }
{
    if !is_ownership(kind, ownership) {
        return Ok(false);
    }
    let is_free = is_free_number(limits, tree, number)?;
    if !is_free {
        return Ok(false);
    }
    can_get(limits, tree, directory, name, 0)
}

/// Whether a file can get one more name.
pub(crate) fn add_link<T: NamedTree>(
    limits: &Limits,
    tree: &mut T,
    directory: u16,
    name: &[u8],
    number: u16,
) -> Result<bool, T::Fault>
    requires { T.holds tree.old }
    ensures left { Leaves T.holds T.follows T.is_told T.shows tree.old tree.new }
    ensures found { IsTrue T.is_told → IfOk result (λ b. b ≡ is_some (linked limits.now (T.shows tree.old) (link_to directory name.now) number)) }
    ensures cause { IfErr result (λ f. T.causes tree.old tree.new f) }
{
    let Some(links) = file_names(tree, number)? else {
        return Ok(false);
    };
    can_get(limits, tree, directory, name, links)
}

// Whether what has the number can lose its name.
fn can_lose<T: NamedTree>(tree: &mut T, number: u16) -> Result<bool, T::Fault>
    requires { T.holds tree.old }
    ensures left { Leaves T.holds T.follows T.is_told T.shows tree.old tree.new }
    ensures found { IsTrue T.is_told → IfOk result (λ b. b ≡ is_some (losing (T.shows tree.old) number)) }
    ensures cause { IfErr result (λ f. T.causes tree.old tree.new f) }
{
    match losing(tree, number)? {
        Some(_) => Ok(true),
        None => Ok(false),
    }
}

/// Whether a name can be removed: that of a file, or of a directory without names.
pub(crate) fn remove<T: NamedTree>(
    tree: &mut T,
    directory: u16,
    name: &[u8],
) -> Result<bool, T::Fault>
    requires { T.holds tree.old }
    ensures left { Leaves T.holds T.follows T.is_told T.shows tree.old tree.new }
    ensures found { IsTrue T.is_told → IfOk result (λ b. b ≡ is_some (removed (T.shows tree.old) (link_to directory name.now))) }
    ensures cause { IfErr result (λ f. T.causes tree.old tree.new f) }
{
    let Some(number) = tree.number(directory, name)? else {
        return Ok(false);
    };
    can_lose(tree, number)
}
