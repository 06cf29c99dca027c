//! snap-create, snap-delete, snap-restore and snap-list.
ghost use Rattle.std.specs.Prelude.{◌≡◌, IsTrue};
ghost use Rattle.sn_limits.specs.Versions.{limits_written};
ghost use Rattle.sn_walk.specs.Gives.{Answers};
ghost use Rattle.sn_model.specs.declared.call.Call.TheVariants as call;
ghost use Rattle.sn_model.specs.SnapshotCalls as calls;
ghost use Rattle.sn_model.specs.Steps.{decision};
ghost use Rattle.sn_model.specs.World.{World, trees_of, viewed_trees};
ghost use Rattle.sn_desc.specs.InUse.{in_world};
ghost use Rattle.sn_desc.specs.Sessions.{in_use_of};
ghost use Rattle.sn_core_decide_rules.specs.Decided.{DecidesShown, HidesNoRefusalShown};
ghost use Rattle.sn_core_decide_rules.specs.Faults.{IfView};
ghost use Rattle.sn_core_decide.specs.Restoring.{restores_in};
ghost use Rattle.sn_walk.specs.Frame.{Leaves};

use sn_acl::Cred;
use sn_core_decide_rules::{
    CallError, FileView, asks, forbidden, logged_in, points, restore_charge,
};
use sn_desc::Sessions;
use sn_limits::{Limits, SnapshotName};
use sn_model::{AskedPoint, Caller, Errno, Outcome, PathNumber, Refusal, Reply, Rule, Word};
use sn_walk::{Home, Object};
use std::alloc::Global;

/// An argument that is the name of a snapshot: EINVAL where it is misspelt.
fn snapshot_argument(word: &Word) -> Result<SnapshotName, Refusal>
    ensures { result ≡ calls.snapshot_argument word.now }
{
    match SnapshotName::parse(word.as_bytes()) {
        Some(name) => Ok(name),
        None => Err(Refusal::plain(Errno::Einval)),
    }
}

/// Whether the caller is the user 0.
fn user_0(cred: &Cred) -> Result<(), Refusal>
    ensures { result ≡ calls.user_0 cred.now }
{
    if cred.uid() == 0 {
        return Ok(());
    }
    Err(forbidden(PathNumber::NONE, 0, Rule::NotRoot))
}

/// Whether no snapshot has the name.
fn vacant<V: FileView>(view: &V, name: &SnapshotName) -> Result<(), Refusal>
    ensures { IsTrue V.is_told → result ≡ calls.vacant_snapshot (V.shows view.now) name.now }
{
    if view.knows_snapshot(name) {
        return Err(Refusal::plain(Errno::Eexist));
    }
    Ok(())
}

/// Whether a snapshot has the name.
fn present<V: FileView>(view: &V, name: &SnapshotName) -> Result<(), Refusal>
    ensures { IsTrue V.is_told → result ≡ calls.present_snapshot (V.shows view.now) name.now }
{
    if view.knows_snapshot(name) {
        return Ok(());
    }
    Err(Refusal::plain(Errno::Enoent))
}

/// Whether there may be one more besides so many snapshots.
fn room_beside(limits: &Limits, count: usize) -> Result<(), Refusal>
    ensures { result ≡ calls.room_for_snapshot limits.now count }
{
    if count >= limits.snapshots as usize {
        return Err(Refusal::plain(Errno::Elimit));
    }
    Ok(())
}

/// Whether nobody has a file of a snapshot open.
fn closed(sessions: &Sessions, name: &SnapshotName) -> Result<(), Refusal>
    ensures { (world : World) → result ≡ calls.closed_tree (in_world (in_use_of sessions.now) world) (Home.Frozen name.now) }
{
    if sessions.has_open(&Home::Frozen(name.copy())) {
        return Err(Refusal::plain(Errno::Ebusy));
    }
    Ok(())
}

/// Whether nobody has a file of the live tree open.
fn closed_live(sessions: &Sessions) -> Result<(), Refusal>
    ensures { (world : World) → result ≡ calls.closed_tree (in_world (in_use_of sessions.now) world) Home.Live }
{
    if sessions.has_open(&Home::Live) {
        return Err(Refusal::plain(Errno::Ebusy));
    }
    Ok(())
}

/// The outcome of snap-create: a name for the live tree as it is.
pub(crate) fn decide_snap_create<V: FileView>(
    alloc: Global,
    view: &mut V,
    sessions: &Sessions,
    session: u32,
    name: &Word,
) -> Result<Outcome<'static>, CallError<V::Fault>>
    requires { V.holds view.old }
    ensures left { Leaves V.holds V.follows V.is_told V.shows view.old view.new }
    ensures decided { IsTrue V.is_told → DecidesShown (in_use_of sessions.now) (V.shows view.old) (V.room view.old) (V.names view.old) (V.bytes view.old) session (call.SnapCreate name.now) result }
    ensures cause { IfView result (λ f. V.causes view.old view.new f) }
{
    let caller = logged_in(sessions, session)?;
    let name = snapshot_argument(name)?;
    user_0(&caller.cred)?;
    vacant(view, &name)?;
    let there = view.listed(alloc, &Object::Snapshots)?;
    room_beside(&Limits::WRITTEN, there.as_slice().len())?;
    Ok(points(AskedPoint::Freezes(name)))
}

/// The outcome of snap-delete: the snapshot is removed.
pub(crate) fn decide_snap_delete<V: FileView>(
    view: &V,
    sessions: &Sessions,
    session: u32,
    name: &Word,
) -> Result<Outcome<'static>, Refusal>
    ensures { IsTrue V.is_told → (world : World) → V.shows view.now ≡ viewed_trees (trees_of world) → Answers (λ o. o) result (decision limits_written (in_world (in_use_of sessions.now) world) session (call.SnapDelete name.now)) }
{
    let caller = logged_in(sessions, session)?;
    let name = snapshot_argument(name)?;
    user_0(&caller.cred)?;
    present(view, &name)?;
    closed(sessions, &name)?;
    Ok(points(AskedPoint::Thaws(name)))
}

/// The name of a snapshot that can be brought back, or why it can't. Nothing is asked that may fail.
fn restorable<V: FileView>(
    view: &V,
    sessions: &Sessions,
    session: u32,
    name: &Word,
) -> Result<SnapshotName, Refusal>
    ensures { IsTrue V.is_told → (world : World) → V.shows view.now ≡ viewed_trees (trees_of world) → Answers (restores_in world) result (decision limits_written (in_world (in_use_of sessions.now) world) session (call.SnapRestore name.now)) }
{
    let caller = logged_in(sessions, session)?;
    let name = snapshot_argument(name)?;
    user_0(&caller.cred)?;
    present(view, &name)?;
    closed_live(sessions)?;
    Ok(name)
}

/// The outcome of snap-restore: the live tree becomes the snapshot's, but for its files without names.
///
/// The files without names of the snapshot's tree are counted last, so that a look-up that fails hides no refusal.
pub(crate) fn decide_snap_restore<V: FileView>(
    view: &mut V,
    sessions: &Sessions,
    session: u32,
    name: &Word,
) -> Result<Outcome<'static>, CallError<V::Fault>>
    requires { V.holds view.old }
    ensures left { Leaves V.holds V.follows V.is_told V.shows view.old view.new }
    ensures decided { IsTrue V.is_told → DecidesShown (in_use_of sessions.now) (V.shows view.old) (V.room view.old) (V.names view.old) (V.bytes view.old) session (call.SnapRestore name.now) result }
    ensures refused { IsTrue V.is_told → HidesNoRefusalShown (in_use_of sessions.now) (V.shows view.old) session (call.SnapRestore name.now) result }
    ensures cause { IfView result (λ f. V.causes view.old view.new f) }
{
    let name = restorable(view, sessions, session, name)?;
    let nameless = match view.count_nameless(&name) {
        Ok(nameless) => nameless,
        Err(fault) => return Err(CallError::View(fault)),
    };
    Ok(Outcome {
        charge: restore_charge(&Limits::WRITTEN, nameless),
        ..points(AskedPoint::Restores(name))
    })
}

/// The outcome of snap-list: the names of the snapshots.
pub(crate) fn decide_snap_list<V: FileView>(
    alloc: Global,
    view: &mut V,
    sessions: &Sessions,
    session: u32,
) -> Result<Outcome<'static>, CallError<V::Fault>>
    requires { V.holds view.old }
    ensures left { Leaves V.holds V.follows V.is_told V.shows view.old view.new }
    ensures decided { IsTrue V.is_told → DecidesShown (in_use_of sessions.now) (V.shows view.old) (V.room view.old) (V.names view.old) (V.bytes view.old) session call.SnapList result }
    ensures cause { IfView result (λ f. V.causes view.old view.new f) }
{
    logged_in(sessions, session)?;
    let names = view.listed(alloc, &Object::Snapshots)?;
    Ok(asks(Caller::Stays, Reply::Names(names)))
}
