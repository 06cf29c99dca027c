ghost use Rattle.std.specs.Prelude.{◌≡◌, ◌≤◌, IsTrue, IfOk, IfErr, IfSome, Ok, Err};
ghost use Rattle.sn_walk.specs.declared.object.Object.TheVariants.{Node, Snapshots};
ghost use Rattle.sn_walk.specs.Gives.{Gives, IfFault};
ghost use Rattle.sn_walk.specs.LookUps.{Looks, looks_at, looks_for, looks_in, looks_of_walk, looks_to_reach};
ghost use Rattle.sn_walk.specs.Views.{attributes_at, child_of, hidden_attributes, hides};
ghost use Rattle.sn_walk.specs.Walks.{EndsAt, admitted, end_of, found_at, passed, walk_of};
ghost use Rattle.sn_walk.specs.Frame.{Leaves};

use crate::{Attributes, Failure, Home, Object, Path, ROOT_NUMBER, TreeView};
use sn_acl::{Acl, Cred, Mode, Permissions, Tag, check};
use sn_limits::{Kind, SnapshotName};

/// The name of the directory of snapshots in the live root.
const HIDDEN_NAME: &[u8] = b".snapshot";

/// Why a walk stopped at a place.
#[derive(Clone, Copy, PartialEq, Eq, Hash)]
pub enum Obstacle {
    /// What is at the place is no directory.
    NotADirectory,
    /// The directory at the place doesn't let the caller search it, by the entry of its ACL with this tag.
    Denied(Tag),
    /// The directory at the place doesn't have the next name.
    Missing,
}

/// A walk's refusal. Place 0 is the root, and place i is what the first i names denote.
#[derive(Clone, Copy, PartialEq, Eq, Hash)]
pub struct WalkRefusal {
    pub place: u16,
    pub obstacle: Obstacle,
}

/// Where a path leads.
#[derive(PartialEq, Eq, Drop)]
pub enum Walked {
    /// The path is `/`.
    Root,
    /// The last name is one of a directory, which is at a place of the path. The object is what the
    /// name denotes, if it is there.
    Name {
        directory: Object,
        place: u16,
        object: Option<Object>,
    },
}

/// What a path leads to, its place in the path, and what is known of it.
#[derive(Drop)]
pub struct Found {
    pub object: Object,
    pub place: u16,
    pub attributes: Attributes,
}

/// The attributes of the directory of snapshots.
fn hidden_attributes() -> Attributes
    ensures { result ≡ hidden_attributes }
{
    let five = Permissions::ALL.difference(Permissions::WRITE);
    Attributes {
        kind: Kind::Directory,
        set_gid: false,
        sticky: false,
        owner: 0,
        group: 0,
        acl: Acl::from_mode(Mode {
            owner: five,
            group: five,
            other: five,
        }),
        links: 1,
        size: 0,
    }
}

/// The attributes of an object.
pub fn attributes_of<T: TreeView>(
    view: &mut T,
    object: &Object,
) -> Result<Option<Attributes>, T::Fault>
    requires { T.holds view.old }
    ensures left { Leaves T.holds T.follows T.is_told T.shows view.old view.new }
    ensures looked_up { T.looked_up (looks_at object.now) view.old view.new }
    ensures found { IsTrue T.is_told → IfOk result (λ a. a ≡ attributes_at (T.shows view.old) object.now) }
    ensures cause { IfErr result (λ f. T.causes view.old view.new f) }
{
    match object {
        Object::Node { home, number } => view.node(home, *number),
        Object::Snapshots => Ok(Some(hidden_attributes())),
    }
}

fn hides(home: &Home, directory: u16, name: &[u8]) -> bool
    ensures { result ≡ hides home.now directory name.now }
{
    match home {
        Home::Live => directory == ROOT_NUMBER && name == HIDDEN_NAME,
        Home::Frozen(_) => false,
    }
}

/// What a name denotes in a directory of a tree.
fn child_in<T: TreeView>(
    view: &mut T,
    home: &Home,
    directory: u16,
    name: &[u8],
) -> Result<Option<Object>, T::Fault>
    requires { T.holds view.old }
    ensures left { Leaves T.holds T.follows T.is_told T.shows view.old view.new }
    ensures looked_up { T.looked_up (looks_for (Node home.now directory) name.now) view.old view.new }
    ensures found { IsTrue T.is_told → IfOk result (λ o. o ≡ child_of (T.shows view.old) (Node home.now directory) name.now) }
    ensures cause { IfErr result (λ f. T.causes view.old view.new f) }
{
    if hides(home, directory, name) {
        return Ok(Some(Object::Snapshots));
    }
    match view.link(home, directory, name)? {
        Some(number) => Ok(Some(Object::Node {
            home: home.copy(),
            number,
        })),
        None => Ok(None),
    }
}

/// What a name denotes in the directory of snapshots: the root of a frozen tree.
fn snapshot_root<T: TreeView>(view: &mut T, name: &[u8]) -> Result<Option<Object>, T::Fault>
    requires { T.holds view.old }
    ensures left { Leaves T.holds T.follows T.is_told T.shows view.old view.new }
    ensures looked_up { T.looked_up (looks_for Snapshots name.now) view.old view.new }
    ensures found { IsTrue T.is_told → IfOk result (λ o. o ≡ child_of (T.shows view.old) Snapshots name.now) }
    ensures cause { IfErr result (λ f. T.causes view.old view.new f) }
{
    let Some(snapshot) = SnapshotName::parse(name) else {
        return Ok(None);
    };
    if !view.has_snapshot(&snapshot)? {
        return Ok(None);
    }
    Ok(Some(Object::Node {
        home: Home::Frozen(snapshot),
        number: ROOT_NUMBER,
    }))
}

/// What a name denotes in a directory.
pub fn child_of<T: TreeView>(
    view: &mut T,
    directory: &Object,
    name: &[u8],
) -> Result<Option<Object>, T::Fault>
    requires { T.holds view.old }
    ensures left { Leaves T.holds T.follows T.is_told T.shows view.old view.new }
    ensures looked_up { T.looked_up (looks_for directory.now name.now) view.old view.new }
    ensures found { IsTrue T.is_told → IfOk result (λ o. o ≡ child_of (T.shows view.old) directory.now name.now) }
    ensures cause { IfErr result (λ f. T.causes view.old view.new f) }
{
    match directory {
        Object::Node { home, number } => child_in(view, home, *number, name),
        Object::Snapshots => snapshot_root(view, name),
    }
}

/// Whether a walk may look for a name in what is at this place.
fn admit(cred: &Cred, place: u16, attributes: Option<Attributes>) -> Result<(), WalkRefusal>
    ensures { result ≡ admitted cred.now place attributes }
{
    let obstacle = match attributes {
        None => Obstacle::Missing,
        Some(a) if a.kind != Kind::Directory => Obstacle::NotADirectory,
        Some(a) => match check(cred, a.owner, a.group, &a.acl, Permissions::EXECUTE) {
            Ok(()) => return Ok(()),
            Err(entry) => Obstacle::Denied(entry.tag),
        },
    };
    Err(WalkRefusal { place, obstacle })
}

/// What a name denotes in what is at this place, which has to be a directory that lets the
/// caller search it.
fn pass<T: TreeView>(
    view: &mut T,
    cred: &Cred,
    place: u16,
    directory: &Object,
    name: &[u8],
) -> Result<Option<Object>, Failure<WalkRefusal, T::Fault>>
    requires { T.holds view.old }
    ensures left { Leaves T.holds T.follows T.is_told T.shows view.old view.new }
    ensures looked_up { IsTrue T.is_told → Looks result (λ looks. T.looked_up looks view.old view.new) (looks_in (T.shows view.old) cred.now place directory.now name.now) }
    ensures exact { IsTrue T.is_told → Gives (λ o. o) result (passed (T.shows view.old) cred.now place directory.now name.now) }
    ensures cause { IfFault result (λ f. T.causes view.old view.new f) }
{
    let attributes = match attributes_of(view, directory) {
        Ok(attributes) => attributes,
        Err(fault) => return Err(Failure::Fault(fault)),
    };
    admit(cred, place, attributes)?;
    match child_of(view, directory, name) {
        Ok(child) => Ok(child),
        Err(fault) => Err(Failure::Fault(fault)),
    }
}

/// Follows a path's names from the live root. At each place before the last there has to be a
/// directory that grants search and has the next name; the last name may be absent. In the frozen
/// tree of a snapshot that tree's own owners and ACLs decide.
///
/// The first test that fails, in the order of the places, is the refusal: a caller that may not
/// search a directory doesn't learn which names it has (POSIX.1-2017, Pathname Resolution).
///
/// Proved: Over every view of the live tree and the frozen ones, a walk is the chain of links or its first refusal, with its
/// place, by the owners and ACLs of the tree that each directory is in.
/// Proved: A missing name below a directory without search isn't revealed; only the live root has the directory of snapshots.
/// Proved: A walk makes the look-ups of its path, in their order, as far as it goes, and no other.
/// Proved: A fault of the view is passed on with its cause, and what the view keeps is kept.
pub fn walk<T: TreeView>(
    view: &mut T,
    cred: &Cred,
    path: &Path<'_>,
) -> Result<Walked, Failure<WalkRefusal, T::Fault>>
    requires { T.holds view.old }
    ensures left { Leaves T.holds T.follows T.is_told T.shows view.old view.new }
    ensures looked_up { IsTrue T.is_told → Looks result (λ looks. T.looked_up looks view.old view.new) (looks_of_walk (T.shows view.old) cred.now path.now) }
    ensures exact { IsTrue T.is_told → Gives (λ w. w) result (walk_of (T.shows view.old) cred.now path.now) }
    ensures ends { IsTrue T.is_told → IfOk result (λ w. EndsAt (T.shows view.old) path.now w) }
    ensures few { IfOk result (λ w. end_of w ≤ 1023) }
    ensures cause { IfFault result (λ f. T.causes view.old view.new f) }
{
    let Some((first, mut rest)) = path.split_first() else {
        return Ok(Walked::Root);
    };
    let mut name = first;
    let mut directory = Object::root();
    let mut place = 0;
    while let Some((next, more)) = rest.split_first() {
        let Some(child) = pass(view, cred, place, &directory, name)? else {
            return Err(Failure::Refused(WalkRefusal {
                place,
                obstacle: Obstacle::Missing,
            }));
        };
        directory = child;
        place += 1;
        name = next;
        rest = more;
    }
    let object = pass(view, cred, place, &directory, name)?;
    Ok(Walked::Name {
        directory,
        place,
        object,
    })
}

/// What a walk's last name denotes, if it is there.
pub fn reached<T: TreeView>(view: &mut T, walked: Walked) -> Result<Option<Found>, T::Fault>
    requires holds { T.holds view.old }
    requires few { end_of walked ≤ 1023 }
    ensures left { Leaves T.holds T.follows T.is_told T.shows view.old view.new }
    ensures looked_up { T.looked_up (looks_to_reach walked) view.old view.new }
    ensures found { IsTrue T.is_told → IfOk result (λ x. x ≡ found_at (T.shows view.old) walked) }
    ensures cause { IfErr result (λ f. T.causes view.old view.new f) }
{
    let (object, place) = match walked {
        Walked::Root => (Object::root(), 0),
        Walked::Name {
            object: Some(object),
            place,
            ..
        } => (object, place + 1),
        Walked::Name { .. } => return Ok(None),
    };
    match attributes_of(view, &object)? {
        Some(attributes) => Ok(Some(Found {
            object,
            place,
            attributes,
        })),
        None => Ok(None),
    }
}
