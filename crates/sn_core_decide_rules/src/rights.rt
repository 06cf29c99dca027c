//! The tests of what a path leads to, and of the rights that a caller has there.
ghost use Rattle.std.specs.Prelude.{◌≡◌, ◌≤◌, IsTrue, IfOk};
ghost use Rattle.sn_acl.specs.Access.{denial_of};
ghost use Rattle.sn_model.specs.AccessCalls as calls;
ghost use Rattle.sn_model.specs.FileCalls as files;
ghost use Rattle.sn_model.specs.Seen as seen;
ghost use Rattle.sn_model.specs.Tests as tests;
ghost use Rattle.sn_walk.specs.Gives.{Gives, IfFault};
ghost use Rattle.sn_walk.specs.Walks.{end_of, found_at};
ghost use Rattle.sn_model.specs.NameCalls as names;
ghost use Rattle.sn_walk.specs.Frame.{Leaves};

use crate::view::CallView;
use sn_acl::{Acl, Cred, Permissions, Tag, check};
use sn_limits::Kind;
use sn_model::{Access, Denial, Errno, PathNumber, Refusal, Rule};
use sn_walk::{
    Attributes, Failure, Found, Home, Object, Obstacle, Path, TreeView, WalkRefusal, Walked,
    attributes_of, reached, walk,
};

/// The entry of the ACL with this tag denies the access that is wanted at a place.
fn denied(path: PathNumber, place: u16, want: Access, tag: Tag) -> Refusal
    ensures { result ≡ tests.denied path place want tag }
{
    Refusal {
        errno: Errno::Eacces,
        denial: Some(Denial {
            path,
            place,
            want,
            rule: Rule::Entry(tag),
        }),
    }
}

/// A rule that is no entry of an ACL denies at a place.
pub fn forbidden(path: PathNumber, place: u16, rule: Rule) -> Refusal
    ensures { result ≡ tests.forbidden path place rule }
{
    Refusal {
        errno: Errno::Eperm,
        denial: Some(Denial {
            path,
            place,
            want: Access {
                read: false,
                write: false,
                execute: false,
            },
            rule,
        }),
    }
}

/// A walk's refusal, as one of a call's first or second path.
fn obstacle_refusal(path: PathNumber, refusal: WalkRefusal) -> Refusal
    ensures { result ≡ tests.obstacle_refusal path refusal.place refusal.obstacle }
{
    let WalkRefusal { place, obstacle } = refusal;
    match obstacle {
        Obstacle::NotADirectory => Refusal::plain(Errno::Enotdir),
        Obstacle::Denied(tag) => denied(path, place, Access::SEARCH, tag),
        Obstacle::Missing => Refusal::plain(Errno::Enoent),
    }
}

/// Each place before the last is a directory that grants search and has the next name: ENOTDIR,
/// EACCES or ENOENT at the first that isn't so.
pub fn prefix<V: TreeView>(
    view: &mut V,
    cred: &Cred,
    which: PathNumber,
    path: &Path<'_>,
) -> Result<Walked, Failure<Refusal, V::Fault>>
    requires { V.holds view.old }
    ensures left { Leaves V.holds V.follows V.is_told V.shows view.old view.new }
    ensures exact { IsTrue V.is_told → Gives (λ w. w) result (tests.prefix (V.shows view.old) cred.now which path.now) }
    ensures few { IfOk result (λ w. end_of w ≤ 1023) }
    ensures cause { IfFault result (λ f. V.causes view.old view.new f) }
{
    match walk(view, cred, path) {
        Ok(walked) => Ok(walked),
        Err(Failure::Refused(refusal)) => {
            Err(Failure::Refused(obstacle_refusal(which, refusal)))
        }
        Err(Failure::Fault(fault)) => Err(Failure::Fault(fault)),
    }
}

/// What the last name of a walk denotes, which has to be there: ENOENT where it is absent.
pub fn there<V: TreeView>(view: &mut V, walked: Walked) -> Result<Found, Failure<Refusal, V::Fault>>
    requires holds { V.holds view.old }
    requires few { end_of walked ≤ 1023 }
    ensures left { Leaves V.holds V.follows V.is_told V.shows view.old view.new }
    ensures exact { IsTrue V.is_told → Gives (λ f. f) result (tests.there (found_at (V.shows view.old) walked)) }
    ensures cause { IfFault result (λ f. V.causes view.old view.new f) }
{
    match reached(view, walked) {
        Ok(Some(found)) => Ok(found),
        Ok(None) => Err(Failure::Refused(Refusal::plain(Errno::Enoent))),
        Err(fault) => Err(Failure::Fault(fault)),
    }
}

/// What a path leads to, which has to be there: ENOENT where the last name is absent.
pub fn full<V: TreeView>(
    view: &mut V,
    cred: &Cred,
    which: PathNumber,
    path: &Path<'_>,
) -> Result<Found, Failure<Refusal, V::Fault>>
    requires { V.holds view.old }
    ensures left { Leaves V.holds V.follows V.is_told V.shows view.old view.new }
    ensures exact { IsTrue V.is_told → Gives (λ f. f) result (tests.full (V.shows view.old) cred.now which path.now) }
    ensures cause { IfFault result (λ f. V.causes view.old view.new f) }
{
    let walked = prefix(view, cred, which, path)?;
    there(view, walked)
}

/// The directory and the place of a name that isn't there yet: EEXIST where it is.
pub fn not_present(walked: Walked) -> Result<(Object, u16), Refusal>
    ensures { result ≡ tests.not_present walked }
{
    match walked {
        Walked::Name {
            directory,
            place,
            object: None,
        } => Ok((directory, place)),
        _ => Err(Refusal::plain(Errno::Eexist)),
    }
}

/// The directory that has the last name, and its place. `/` is in none, which is refused with this error.
pub fn parent_of(without: Errno, walked: &Walked) -> Result<(Object, u16), Refusal>
    ensures { result ≡ seen.parent_of without walked.now }
{
    match walked {
        Walked::Root => Err(Refusal::plain(without)),
        Walked::Name {
            directory,
            place,
            ..
        } => Ok((directory.copy(), *place)),
    }
}

/// The number of what is in the live tree: EROFS where it is in another.
pub fn live(object: &Object) -> Result<u16, Refusal>
    ensures { result ≡ tests.live object.now }
{
    if !object.is_in_tree_of(&Object::root()) {
        return Err(Refusal::plain(Errno::Erofs));
    }
    Ok(object.number())
}

/// Two names, by their directories, are in one tree: EXDEV where they aren't.
pub fn one_tree(directory: &Object, other: &Object) -> Result<(), Refusal>
    ensures { result ≡ tests.one_tree directory.now other.now }
{
    if !directory.is_in_tree_of(other) {
        return Err(Refusal::plain(Errno::Exdev));
    }
    Ok(())
}

/// What is to be written to is in the live tree: EROFS where it is in another.
pub fn live_if(is_written: bool, object: &Object) -> Result<(), Refusal>
    ensures { result ≡ calls.live_if is_written object.now }
{
    if !is_written {
        return Ok(());
    }
    match live(object) {
        Ok(_) => Ok(()),
        Err(refusal) => Err(refusal),
    }
}

/// The rights that an access needs.
fn rights_of(want: Access) -> Permissions
    ensures { result ≡ tests.rights_of want }
{
    let read = if want.read { 4 } else { 0 };
    let write = if want.write { 2 } else { 0 };
    let execute = if want.execute { 1 } else { 0 };
    Permissions::from_bits(read + write + execute).unwrap()
}

/// An access is asked of what is at a place: EACCES, by the entry that denies it.
pub fn granted(
    cred: &Cred,
    which: PathNumber,
    place: u16,
    want: Access,
    a: &Attributes,
) -> Result<(), Refusal>
    ensures { result ≡ tests.unless_denied which place want (denial_of cred.now a.now.owner a.now.group a.now.acl (tests.rights_of want)) }
{
    match check(cred, a.owner, a.group, &a.acl, rights_of(want)) {
        Ok(()) => Ok(()),
        Err(entry) => Err(denied(which, place, want, entry.tag)),
    }
}

/// Write is asked of the directory of a path's last name: EACCES, at the directory's place.
pub fn writable_parent<V: TreeView>(
    view: &mut V,
    cred: &Cred,
    which: PathNumber,
    place: u16,
    directory: &Object,
) -> Result<Attributes, Failure<Refusal, V::Fault>>
    requires { V.holds view.old }
    ensures left { Leaves V.holds V.follows V.is_told V.shows view.old view.new }
    ensures exact { IsTrue V.is_told → Gives (λ a. a) result (tests.writable_parent (V.shows view.old) cred.now which place directory.now) }
    ensures cause { IfFault result (λ f. V.causes view.old view.new f) }
{
    let a = match attributes_of(view, directory) {
        Ok(Some(a)) => a,
        Ok(None) => return Err(Failure::Refused(Refusal::plain(Errno::Enoent))),
        Err(fault) => return Err(Failure::Fault(fault)),
    };
    granted(cred, which, place, Access::WRITE, &a)?;
    Ok(a)
}

/// What a directory gives a new node: its default ACL, where a number is left and the directory has room. It
/// is ELIMIT otherwise.
pub fn given_in<V: CallView>(
    view: &mut V,
    directory: u16,
) -> Result<Option<Acl>, Failure<Refusal, V::Fault>>
    requires { V.holds view.old }
    ensures left { Leaves V.holds V.follows V.is_told V.shows view.old view.new }
    ensures room { IsTrue V.is_told → Gives (λ _. tt) result (V.room view.old directory) }
    ensures found { IsTrue V.is_told → IfOk result (λ acl. acl ≡ ((V.shows view.old).tree Home.Live).default_acl directory) }
    ensures cause { IfFault result (λ f. V.causes view.old view.new f) }
{
    view.has_room(directory)?;
    match view.default_acl(&Home::Live, directory) {
        Ok(acl) => Ok(acl),
        Err(fault) => Err(Failure::Fault(fault)),
    }
}

/// From a directory with S_ISVTX a caller removes what it owns, or anything where it owns the
/// directory: EPERM by `sticky` otherwise, at the object's place. The user 0 is held by no rule.
pub fn sticky(
    cred: &Cred,
    which: PathNumber,
    parent: &Attributes,
    found: &Found,
) -> Result<(), Refusal>
    ensures { result ≡ tests.sticky cred.now which parent.now found.now }
{
    let uid = cred.uid();
    let owns = uid == 0 || uid == found.attributes.owner || uid == parent.owner;
    if parent.sticky && !owns {
        return Err(forbidden(which, found.place, Rule::Sticky));
    }
    Ok(())
}

/// Only a file's name is unlinked: EPERM for a directory.
pub fn no_directory(found: &Found) -> Result<(), Refusal>
    ensures { result ≡ files.no_directory found.now }
{
    match found.attributes.kind {
        Kind::Directory => Err(Refusal::plain(Errno::Eperm)),
        Kind::File => Ok(()),
    }
}

/// Only a directory is listed, and taken away by rmdir: ENOTDIR otherwise.
pub fn is_listable(found: &Found) -> Result<(), Refusal>
    ensures { result ≡ names.is_listable found.now }
{
    match found.attributes.kind {
        Kind::Directory => Ok(()),
        Kind::File => Err(Refusal::plain(Errno::Enotdir)),
    }
}

/// A directory that is removed has no names: ENOTEMPTY otherwise.
pub fn empty<V: CallView>(view: &mut V, directory: u16) -> Result<(), Failure<Refusal, V::Fault>>
    requires { V.holds view.old }
    ensures left { Leaves V.holds V.follows V.is_told V.shows view.old view.new }
    ensures exact { IsTrue V.is_told → Gives (λ u. u) result (names.empty ((V.names view.old).is_empty directory)) }
    ensures cause { IfFault result (λ f. V.causes view.old view.new f) }
{
    match view.is_empty(directory) {
        Ok(true) => Ok(()),
        Ok(false) => Err(Failure::Refused(Refusal::plain(Errno::Enotempty))),
        Err(fault) => Err(Failure::Fault(fault)),
    }
}
