//! Whether a name can be moved.
ghost use Rattle.std.specs.Prelude.{◌≡◌, ℕ, IsTrue, IfOk, IfErr, List, Some, is_some};
ghost use Rattle.std.specs.FinMap as map;
ghost use Rattle.sn_applies.specs.Tests.{can_move, gives_way, leaving, lies_in_itself};
ghost use Rattle.sn_model.specs.Changes.{renamed};
ghost use Rattle.sn_model.specs.NameTree.{IsHierarchy};
ghost use Rattle.sn_model.specs.Tree.{link_to};
ghost use Rattle.sn_walk.specs.Frame.{Leaves};

use crate::NamedTree;
use crate::reads::{Standing, has_room, losing, standing_of};
use crate::tests::is_name_in;
use sn_limits::{Kind, Limits};

// What is moved, and where: from a directory to another one, or within it.
#[derive(Clone, Copy)]
struct Moving {
    from: u16,
    to: u16,
    number: u16,
    standing: Standing,
    // what has the new name
    target: Option<u16>,
}

// Whether what has the new name can lose it to a node of this kind, if anything has it.
fn gives_way<T: NamedTree>(tree: &mut T, kind: Kind, target: Option<u16>) -> Result<bool, T::Fault>
    requires { T.holds tree.old }
    ensures left { Leaves T.holds T.follows T.is_told T.shows tree.old tree.new }
    ensures found { IsTrue T.is_told → IfOk result (λ b. b ≡ gives_way (T.shows tree.old) kind target) }
    ensures cause { IfErr result (λ f. T.causes tree.old tree.new f) }
{
    let Some(number) = target else {
        return Ok(true);
    };
    match losing(tree, number)? {
        Some(other) => Ok(other == kind),
        None => Ok(false),
    }
}

// Whether it is a directory that would be moved into itself.
fn lies_in_itself<T: NamedTree>(
    tree: &mut T,
    kind: Kind,
    number: u16,
    directory: u16,
) -> Result<bool, T::Fault>
    requires { T.holds tree.old }
    ensures left { Leaves T.holds T.follows T.is_told T.shows tree.old tree.new }
    ensures found { IsTrue T.is_told → IfOk result (λ b. b ≡ lies_in_itself (T.shows tree.old) kind number directory) }
    ensures cause { IfErr result (λ f. T.causes tree.old tree.new f) }
{
    match kind {
        Kind::File => Ok(false),
        Kind::Directory => tree.is_below(number, directory),
    }
}

// How many names of the new directory are removed.
fn leaving(moving: Moving) -> u32
    ensures { result ≡ leaving moving.from moving.to moving.target }
{
    u32::from(moving.target.is_some()) + u32::from(moving.from == moving.to)
}

fn can_move<T: NamedTree>(
    limits: &Limits,
    tree: &mut T,
    moving: Moving,
    name: &[u8],
) -> Result<bool, T::Fault>
    requires { T.holds tree.old }
    ensures left { Leaves T.holds T.follows T.is_told T.shows tree.old tree.new }
    ensures found { IsTrue T.is_told → IfOk result (λ b. b ≡ can_move limits.now (T.shows tree.old) moving.from (link_to moving.to name.now) moving.number moving.standing moving.target) }
    ensures cause { IfErr result (λ f. T.causes tree.old tree.new f) }
{
    if !is_name_in(moving.to, name) {
        return Ok(false);
    }
    let standing = moving.standing;
    let gives_way = gives_way(tree, standing.kind, moving.target)?;
    let is_inside = lies_in_itself(tree, standing.kind, moving.number, moving.to)?;
    let links = standing.links.saturating_sub(1);
    let has_room = has_room(limits, tree, moving.to, leaving(moving), links)?;
    Ok(gives_way && !is_inside && has_room)
}

// Whether a name of a directory, which has this number, can be moved.
fn move_number<T: NamedTree>(
    limits: &Limits,
    tree: &mut T,
    from: u16,
    number: u16,
    to: u16,
    name: &[u8],
) -> Result<bool, T::Fault>
    requires { T.holds tree.old }
    ensures left { Leaves T.holds T.follows T.is_told T.shows tree.old tree.new }
    ensures found { IsTrue T.is_told → IsHierarchy (T.shows tree.old) → (old_name : List ℕ) → map.get (T.shows tree.old).links (link_to from old_name) ≡ Some number → IfOk result (λ b. b ≡ is_some (renamed limits.now (T.shows tree.old) (link_to from old_name) (link_to to name.now))) }
    ensures cause { IfErr result (λ f. T.causes tree.old tree.new f) }
{
    let Some(standing) = standing_of(tree, number)? else {
        return Ok(false);
    };
    let target = tree.number(to, name)?;
    if target == Some(number) {
        return Ok(true);
    }
    let moving = Moving {
        from,
        to,
        number,
        standing,
        target,
    };
    can_move(limits, tree, moving, name)
}

/// Whether a name can be moved. What has the new name is replaced. Where both are names of one object,
/// nothing changes.
pub(crate) fn rename<T: NamedTree>(
    limits: &Limits,
    tree: &mut T,
    from: u16,
    old_name: &[u8],
    to: u16,
    new_name: &[u8],
) -> Result<bool, T::Fault>
    requires { T.holds tree.old }
    ensures left { Leaves T.holds T.follows T.is_told T.shows tree.old tree.new }
    ensures found { IsTrue T.is_told → IsHierarchy (T.shows tree.old) → IfOk result (λ b. b ≡ is_some (renamed limits.now (T.shows tree.old) (link_to from old_name.now) (link_to to new_name.now))) }
    ensures cause { IfErr result (λ f. T.causes tree.old tree.new f) }
{
    let Some(number) = tree.number(from, old_name)? else {
        return Ok(false);
    };
    move_number(limits, tree, from, number, to, new_name)
}
