//! rename.
ghost use Rattle.std.specs.Prelude.{◌≡◌, ℕ, IsTrue};
ghost use Rattle.sn_model.specs.NameCalls as calls;
ghost use Rattle.sn_walk.specs.Gives.{Gives, IfFault};
ghost use Rattle.sn_core_decide_rules.specs.Views.{seen_by};
ghost use Rattle.sn_model.specs.declared.call.Call.TheVariants as call;
ghost use Rattle.sn_desc.specs.Sessions.{in_use_of};
ghost use Rattle.sn_core_decide_rules.specs.Decided.{DecidesShown};
ghost use Rattle.sn_core_decide_rules.specs.Faults.{IfView};
ghost use Rattle.sn_walk.specs.Frame.{Leaves};

use sn_acl::Cred;
use sn_core_decide_rules::{
    CallError, CallView, FileView, MoveView, asks, decided, does, empty, live, logged_in, one_tree,
    parent_of, path_argument, prefix, rename_charge, sticky, there, writable_parent,
};
use sn_desc::Sessions;
use sn_limits::{Kind, Limits};
use sn_model::{
    Bytes, Caller, Change, Errno, Moving, Outcome, PathNumber, Refusal, Reply, Session, Word,
};
use sn_walk::{Attributes, Failure, Found, Object, Path, TreeView, reached};

/// `/` and `/.snapshot` stay where they are, and nothing takes their place: EBUSY.
fn movable(path: &Path<'_>) -> Result<(), Refusal>
    ensures { result ≡ calls.movable path.now }
{
    let is_fixed = match path.split_first() {
        None => true,
        Some((name, rest)) => { rest.split_first().is_none() && name == b".snapshot".as_slice() }
    };
    if is_fixed {
        return Err(Refusal::plain(Errno::Ebusy));
    }
    Ok(())
}

/// Whether both names are of one file or of one directory.
fn is_one(moving: &Moving) -> bool
    ensures { result ≡ calls.is_one moving.now.found moving.now.target }
{
    match &moving.target {
        Some(other) => moving.found.object.number() == other.object.number(),
        None => false,
    }
}

/// The new name isn't below what is moved: EINVAL otherwise.
fn not_below<V: MoveView>(view: &mut V, moving: &Moving) -> Result<(), Failure<Refusal, V::Fault>>
    requires { V.holds view.old }
    ensures left { Leaves V.holds V.follows V.is_told V.shows view.old view.new }
    ensures exact { IsTrue V.is_told → Gives (λ u. u) result (calls.not_below (seen_by (V.shows view.old) (V.room view.old) (V.names view.old)) moving.now) }
    ensures cause { IfFault result (λ f. V.causes view.old view.new f) }
{
    if moving.found.attributes.kind == Kind::File {
        return Ok(());
    }
    let top = moving.found.object.number();
    match view.is_below(top, moving.new_directory.number()) {
        Ok(true) => Err(Failure::Refused(Refusal::plain(Errno::Einval))),
        Ok(false) => Ok(()),
        Err(fault) => Err(Failure::Fault(fault)),
    }
}

/// A directory takes the place of a directory, a file that of a file: ENOTDIR and EISDIR otherwise.
fn alike(kind: Kind, replaced: Kind) -> Result<(), Refusal>
    ensures { result ≡ calls.alike kind replaced }
{
    match (kind, replaced) {
        (Kind::Directory, Kind::File) => Err(Refusal::plain(Errno::Enotdir)),
        (Kind::File, Kind::Directory) => Err(Refusal::plain(Errno::Eisdir)),
        _ => Ok(()),
    }
}

/// What has the new name is replaced by what is moved: EPERM by `sticky` at its place, ENOTDIR, EISDIR or
/// ENOTEMPTY otherwise.
fn gives_way<V: CallView>(
    view: &mut V,
    cred: &Cred,
    parent: &Attributes,
    moving: &Moving,
) -> Result<(), Failure<Refusal, V::Fault>>
    requires { V.holds view.old }
    ensures left { Leaves V.holds V.follows V.is_told V.shows view.old view.new }
    ensures exact { IsTrue V.is_told → Gives (λ u. u) result (calls.gives_way (seen_by (V.shows view.old) (V.room view.old) (V.names view.old)) cred.now parent.now moving.now.found moving.now.target) }
    ensures cause { IfFault result (λ f. V.causes view.old view.new f) }
{
    let Some(target) = &moving.target else {
        return Ok(());
    };
    sticky(cred, PathNumber::SECOND, parent, target)?;
    alike(moving.found.attributes.kind, target.attributes.kind)?;
    match target.attributes.kind {
        Kind::Directory => empty(view, target.object.number()),
        Kind::File => Ok(()),
    }
}

/// Room for one more name, where no other is removed from the directory: ELIMIT otherwise.
fn room_to_move<V: CallView>(
    view: &mut V,
    moving: &Moving,
) -> Result<(), Failure<Refusal, V::Fault>>
    requires { V.holds view.old }
    ensures left { Leaves V.holds V.follows V.is_told V.shows view.old view.new }
    ensures exact { IsTrue V.is_told → Gives (λ u. u) result (calls.room_to_move (seen_by (V.shows view.old) (V.room view.old) (V.names view.old)) moving.now) }
    ensures cause { IfFault result (λ f. V.causes view.old view.new f) }
{
    let new = moving.new_directory.number();
    if moving.target.is_some() || moving.old_directory.number() == new {
        return Ok(());
    }
    view.has_room_for_name(new)
}

/// Where the new name of what was found leads to: its directory, its place and what has it already, in the
/// tree of the old name, the live one. EBUSY, EXDEV or EROFS otherwise.
fn moving_to<V: TreeView>(
    view: &mut V,
    cred: &Cred,
    new: &Path<'_>,
    old_directory: &Object,
    found: &Found,
) -> Result<(Object, u16, Option<Found>), Failure<Refusal, V::Fault>>
    requires { V.holds view.old }
    ensures left { Leaves V.holds V.follows V.is_told V.shows view.old view.new }
    ensures exact { IsTrue V.is_told → (place : ℕ) → Gives (λ to. record { old_directory = old_directory.now; old_place = place; new_directory = to.0; new_place = to.1; found = found.now; target = to.2 }) result (calls.moving_to (V.shows view.old) cred.now new.now old_directory.now place found.now) }
    ensures cause { IfFault result (λ f. V.causes view.old view.new f) }
{
    let walked = prefix(view, cred, PathNumber::SECOND, new)?;
    let (directory, place) = parent_of(Errno::Ebusy, &walked)?;
    one_tree(old_directory, &directory)?;
    live(&found.object)?;
    match reached(view, walked) {
        Ok(target) => Ok((directory, place, target)),
        Err(fault) => Err(Failure::Fault(fault)),
    }
}

/// What the names of a rename lead to, in one tree, the live one: ENOENT, EXDEV or EROFS otherwise.
#[tactic(auto, unfolding(sn_model::specs::NameCalls::moving_of))]
fn moving_of<V: TreeView>(
    view: &mut V,
    cred: &Cred,
    old: &Path<'_>,
    new: &Path<'_>,
) -> Result<Moving, Failure<Refusal, V::Fault>>
    requires { V.holds view.old }
    ensures left { Leaves V.holds V.follows V.is_told V.shows view.old view.new }
    ensures exact { IsTrue V.is_told → Gives (λ m. m) result (calls.moving_of (V.shows view.old) cred.now old.now new.now) }
    ensures cause { IfFault result (λ f. V.causes view.old view.new f) }
{
    let walked = prefix(view, cred, PathNumber::FIRST, old)?;
    let parent = parent_of(Errno::Ebusy, &walked);
    let found = there(view, walked)?;
    let (old_directory, old_place) = parent?;
    let (new_directory, new_place, target) = moving_to(view, cred, new, &old_directory, &found)?;
    Ok(Moving {
        old_directory,
        old_place,
        new_directory,
        new_place,
        found,
        target,
    })
}

/// A name that is moved from one directory to another.
fn moved_in<'a, V: CallView>(
    limits: &Limits,
    view: &mut V,
    caller: &Session,
    old: &Path<'a>,
    new: &Path<'a>,
    moving: &Moving,
    from: &Attributes,
    to: &Attributes,
) -> Result<Outcome<'a>, Failure<Refusal, V::Fault>>
    requires { V.holds view.old }
    ensures left { Leaves V.holds V.follows V.is_told V.shows view.old view.new }
    ensures exact { IsTrue V.is_told → Gives (λ o. o) result (calls.moved_in limits.now (seen_by (V.shows view.old) (V.room view.old) (V.names view.old)) caller.now old.now new.now moving.now from.now to.now) }
    ensures cause { IfFault result (λ f. V.causes view.old view.new f) }
{
    sticky(&caller.cred, PathNumber::FIRST, from, &moving.found)?;
    gives_way(view, &caller.cred, to, moving)?;
    room_to_move(view, moving)?;
    Ok(does(
        rename_charge(limits),
        Change::Rename {
            old_directory: moving.old_directory.number(),
            old_name: Bytes::new(old.last().unwrap_or(b"")),
            new_directory: moving.new_directory.number(),
            new_name: Bytes::new(new.last().unwrap_or(b"")),
        },
    ))
}

/// The outcome of a rename that moves a name.
#[tactic(auto, unfolding(sn_model::specs::NameCalls::moved_outcome))]
fn moved<'a, V: MoveView>(
    limits: &Limits,
    view: &mut V,
    caller: &Session,
    old: &Path<'a>,
    new: &Path<'a>,
    moving: &Moving,
) -> Result<Outcome<'a>, Failure<Refusal, V::Fault>>
    requires { V.holds view.old }
    ensures left { Leaves V.holds V.follows V.is_told V.shows view.old view.new }
    ensures exact { IsTrue V.is_told → Gives (λ o. o) result (calls.moved_outcome limits.now (seen_by (V.shows view.old) (V.room view.old) (V.names view.old)) caller.now old.now new.now moving.now) }
    ensures cause { IfFault result (λ f. V.causes view.old view.new f) }
{
    let cred = &caller.cred;
    not_below(view, moving)?;
    let (place, directory) = (moving.old_place, &moving.old_directory);
    let from = writable_parent(view, cred, PathNumber::FIRST, place, directory)?;
    let (place, directory) = (moving.new_place, &moving.new_directory);
    let to = writable_parent(view, cred, PathNumber::SECOND, place, directory)?;
    moved_in(limits, view, caller, old, new, moving, &from, &to)
}

/// The outcome of rename: a name is exchanged for another, and what had that is removed. Where both are of one
/// file or of one directory nothing is done.
#[tactic(auto, unfolding(sn_model::specs::NameCalls::rename_outcome))]
fn rename<'a, V: MoveView>(
    limits: &Limits,
    view: &mut V,
    caller: &Session,
    old: &Path<'a>,
    new: &Path<'a>,
) -> Result<Outcome<'a>, Failure<Refusal, V::Fault>>
    requires { V.holds view.old }
    ensures left { Leaves V.holds V.follows V.is_told V.shows view.old view.new }
    ensures exact { IsTrue V.is_told → Gives (λ o. o) result (calls.rename_outcome limits.now (seen_by (V.shows view.old) (V.room view.old) (V.names view.old)) caller.now old.now new.now) }
    ensures cause { IfFault result (λ f. V.causes view.old view.new f) }
{
    movable(old)?;
    movable(new)?;
    let moving = moving_of(view, &caller.cred, old, new)?;
    if is_one(&moving) {
        return Ok(asks(Caller::Stays, Reply::Done));
    }
    moved(limits, view, caller, old, new, &moving)
}

/// The outcome of rename: an object gets a new name in place of the old one (POSIX.1-2017 `rename`).
///
/// Proved: The outcome of `rename`, or its first refusal, is the model's in each world that the sessions and a view
/// show, whatever that view reads.
pub fn decide_rename<'a, V: FileView>(
    view: &mut V,
    sessions: &Sessions,
    session: u32,
    old: &'a Word,
    new: &'a Word,
) -> Result<Outcome<'a>, CallError<V::Fault>>
    requires { V.holds view.old }
    ensures left { Leaves V.holds V.follows V.is_told V.shows view.old view.new }
    ensures decided { IsTrue V.is_told → DecidesShown (in_use_of sessions.now) (V.shows view.old) (V.room view.old) (V.names view.old) (V.bytes view.old) session (call.Rename old.now new.now) result }
    ensures cause { IfView result (λ f. V.causes view.old view.new f) }
{
    let caller = logged_in(sessions, session)?;
    let old = path_argument(old)?;
    let new = path_argument(new)?;
    decided(rename(&Limits::WRITTEN, view, caller, &old, &new))
}
