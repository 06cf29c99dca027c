//! The outcome of each call.
ghost use Rattle.std.specs.Prelude.{◌≡◌, ℕ, IsTrue, IfOk};
ghost use Rattle.sn_limits.specs.Versions.{limits_written};
ghost use Rattle.sn_model.specs.declared.call.Call.{Call as TheCall};
ghost use Rattle.sn_model.specs.Steps.{decision};
ghost use Rattle.sn_model.specs.World.{World};
ghost use Rattle.sn_model.specs.Worlds.{IsCall};
ghost use Rattle.sn_walk.specs.Gives.{Answers};
ghost use Rattle.sn_desc.specs.InUse.{in_world};
ghost use Rattle.sn_desc.specs.Sessions.{in_use_of};
ghost use Rattle.sn_core_decide_rules.specs.Decided.{Decides, DecidesShown, HidesNoRefusal, HidesNoRefusalShown};
ghost use Rattle.sn_core_decide_rules.specs.Faults.{IfView};
ghost use Rattle.sn_core_decide_rules.specs.Shown.{Shows};
ghost use Rattle.sn_core_decide.specs.Groups.{group_of};
ghost use Rattle.sn_walk.specs.Frame.{Leaves};

use crate::groups::{Group, group_of};
use crate::sessions::{decide_login, decide_logout, decide_sync, decide_umask};
use crate::snapshots::{
    decide_snap_create, decide_snap_delete, decide_snap_list, decide_snap_restore,
};
use sn_core_decide_access::{
    decide_access, decide_chmod, decide_chown, decide_getacl, decide_setacl, decide_stat,
};
use sn_core_decide_files::{
    decide_close, decide_ftruncate, decide_open, decide_read, decide_seek, decide_write,
};
use sn_core_decide_names::{
    decide_link, decide_mkdir, decide_readdir, decide_rmdir, decide_unlink,
};
use sn_core_decide_rename::decide_rename;
use sn_core_decide_rules::{CallError, FileView};
use sn_desc::Sessions;
use sn_model::{Call, Outcome, Refusal};
use std::alloc::Global;

/// The outcome of a call that asks nothing of the view.
fn unviewed<'a, F>(answer: Result<Outcome<'a>, Refusal>) -> Result<Outcome<'a>, CallError<F>>
    ensures decided { (world : World) → (session : ℕ) → (call : TheCall) → Answers (λ o. o) answer.entry (decision limits_written world session call) → Decides world session call result }
    ensures refused { (world : World) → (session : ℕ) → (call : TheCall) → Answers (λ o. o) answer.entry (decision limits_written world session call) → HidesNoRefusal world session call result }
    ensures cause { IfView result (λ f. ⊥) }
    ensures numbers { (call : TheCall) → IfOk answer.entry (λ o. IsCall call) → IfOk result (λ o. IsCall call) }
{
    match answer {
        Ok(outcome) => Ok(outcome),
        Err(refusal) => Err(CallError::Refused(refusal)),
    }
}

/// The outcome of a call of sessions, which asks nothing of the trees.
fn decide_of_session<'a>(
    sessions: &Sessions,
    session: u32,
    call: &'a Call,
) -> Result<Outcome<'a>, Refusal>
    requires { group_of call.now ≡ Group.Sessions }
    ensures decided { (world : World) → Answers (λ o. o) result (decision limits_written (in_world (in_use_of sessions.now) world) session call.now) }
    ensures numbers { IfOk result (λ o. IsCall call.now) }
{
    match call {
        Call::Login { uid, gid, groups } => decide_login(sessions, session, *uid, *gid, groups),
        Call::Logout => decide_logout(sessions, session),
        Call::Umask { mask } => decide_umask(sessions, session, *mask),
        Call::Close { fd } => decide_close(sessions, session, *fd),
        Call::Seek { fd, offset } => decide_seek(sessions, session, *fd, *offset),
        Call::Ftruncate { fd, size } => decide_ftruncate(sessions, session, *fd, *size),
        Call::Sync => decide_sync(sessions, session),
        _ => unreachable!(),
    }
}

/// The outcome of a call of a node that a path names.
fn decide_of_node<'a, V: FileView>(
    alloc: Global,
    view: &mut V,
    sessions: &Sessions,
    session: u32,
    call: &'a Call,
) -> Result<Outcome<'a>, CallError<V::Fault>>
    requires holds { V.holds view.old }
    requires group { group_of call.now ≡ Group.Nodes }
    ensures left { Leaves V.holds V.follows V.is_told V.shows view.old view.new }
    ensures decided { IsTrue V.is_told → DecidesShown (in_use_of sessions.now) (V.shows view.old) (V.room view.old) (V.names view.old) (V.bytes view.old) session call.now result }
    ensures cause { IfView result (λ f. V.causes view.old view.new f) }
    ensures numbers { IfOk result (λ o. IsCall call.now) }
{
    match call {
        Call::Mkdir { path, mode } => decide_mkdir(view, sessions, session, path, *mode),
        Call::Chmod { path, mode } => decide_chmod(view, sessions, session, path, *mode),
        Call::Chown { path, uid, gid } => decide_chown(view, sessions, session, path, *uid, *gid),
        Call::Stat { path } => decide_stat(view, sessions, session, path),
        Call::Access { path, want } => decide_access(view, sessions, session, path, *want),
        Call::GetAcl { path, kind } => decide_getacl(alloc, view, sessions, session, path, *kind),
        Call::SetAcl { path, kind, acl } => {
            decide_setacl(view, sessions, session, path, *kind, acl)
        }
        _ => unreachable!(),
    }
}

/// The outcome of a call that lists names or replaces them.
fn decide_of_names<'a, V: FileView>(
    alloc: Global,
    view: &mut V,
    sessions: &Sessions,
    session: u32,
    call: &'a Call,
) -> Result<Outcome<'a>, CallError<V::Fault>>
    requires holds { V.holds view.old }
    requires group { group_of call.now ≡ Group.Names }
    ensures left { Leaves V.holds V.follows V.is_told V.shows view.old view.new }
    ensures decided { IsTrue V.is_told → DecidesShown (in_use_of sessions.now) (V.shows view.old) (V.room view.old) (V.names view.old) (V.bytes view.old) session call.now result }
    ensures cause { IfView result (λ f. V.causes view.old view.new f) }
    ensures numbers { IfOk result (λ o. IsCall call.now) }
{
    match call {
        Call::Rmdir { path } => decide_rmdir(view, sessions, session, path),
        Call::Unlink { path } => decide_unlink(view, sessions, session, path),
        Call::Link { old, new } => decide_link(view, sessions, session, old, new),
        Call::Rename { old, new } => decide_rename(view, sessions, session, old, new),
        Call::Readdir { path } => decide_readdir(alloc, view, sessions, session, path),
        _ => unreachable!(),
    }
}

/// The outcome of a call that opens a file, reads or writes it.
fn decide_of_file<'a, V: FileView>(
    alloc: Global,
    view: &mut V,
    sessions: &Sessions,
    session: u32,
    call: &'a Call,
) -> Result<Outcome<'a>, CallError<V::Fault>>
    requires holds { V.holds view.old }
    requires group { group_of call.now ≡ Group.Files }
    ensures left { Leaves V.holds V.follows V.is_told V.shows view.old view.new }
    ensures decided { IsTrue V.is_told → DecidesShown (in_use_of sessions.now) (V.shows view.old) (V.room view.old) (V.names view.old) (V.bytes view.old) session call.now result }
    ensures cause { IfView result (λ f. V.causes view.old view.new f) }
    ensures numbers { IfOk result (λ o. IsCall call.now) }
{
    match call {
        Call::Open { path, flags, mode } => {
            decide_open(view, sessions, session, path, *flags, *mode)
        }
        Call::Read { fd, count } => decide_read(alloc, view, sessions, session, *fd, *count),
        Call::Write { fd, bytes } => decide_write(view, sessions, session, *fd, bytes),
        _ => unreachable!(),
    }
}

/// The outcome of a call of snapshots.
fn decide_of_snapshot<'a, V: FileView>(
    alloc: Global,
    view: &mut V,
    sessions: &Sessions,
    session: u32,
    call: &'a Call,
) -> Result<Outcome<'a>, CallError<V::Fault>>
    requires holds { V.holds view.old }
    requires group { group_of call.now ≡ Group.Snapshots }
    ensures left { Leaves V.holds V.follows V.is_told V.shows view.old view.new }
    ensures decided { IsTrue V.is_told → DecidesShown (in_use_of sessions.now) (V.shows view.old) (V.room view.old) (V.names view.old) (V.bytes view.old) session call.now result }
    ensures refused { IsTrue V.is_told → HidesNoRefusalShown (in_use_of sessions.now) (V.shows view.old) session call.now result }
    ensures cause { IfView result (λ f. V.causes view.old view.new f) }
    ensures numbers { IfOk result (λ o. IsCall call.now) }
{
    match call {
        Call::SnapCreate { name } => decide_snap_create(alloc, view, sessions, session, name),
        Call::SnapDelete { name } => unviewed(decide_snap_delete(view, sessions, session, name)),
        Call::SnapRestore { name } => decide_snap_restore(view, sessions, session, name),
        Call::SnapList => decide_snap_list(alloc, view, sessions, session),
        _ => unreachable!(),
    }
}

/// The outcome of a call over each world that the view shows, or why it has none.
fn decide_shown<'a, V: FileView>(
    alloc: Global,
    view: &mut V,
    sessions: &Sessions,
    session: u32,
    call: &'a Call,
) -> Result<Outcome<'a>, CallError<V::Fault>>
    requires { V.holds view.old }
    ensures left { Leaves V.holds V.follows V.is_told V.shows view.old view.new }
    ensures decided { IsTrue V.is_told → DecidesShown (in_use_of sessions.now) (V.shows view.old) (V.room view.old) (V.names view.old) (V.bytes view.old) session call.now result }
    ensures refused { IsTrue V.is_told → HidesNoRefusalShown (in_use_of sessions.now) (V.shows view.old) session call.now result }
    ensures cause { IfView result (λ f. V.causes view.old view.new f) }
    ensures numbers { IfOk result (λ o. IsCall call.now) }
{
    match group_of(call) {
        Group::Sessions => unviewed(decide_of_session(sessions, session, call)),
        Group::Nodes => decide_of_node(alloc, view, sessions, session, call),
        Group::Names => decide_of_names(alloc, view, sessions, session, call),
        Group::Files => decide_of_file(alloc, view, sessions, session, call),
        Group::Snapshots => decide_of_snapshot(alloc, view, sessions, session, call),
    }
}

/// The outcome of a call, its first refusal, or why it has neither: `Memory` where its answer found none, `View` where
/// the view found a fault. Both come only once its session and arguments have passed. Nothing changes.
///
/// Proved: The outcome of a call, or its first refusal, is exactly the model's in each world that the sessions and a view
/// show, whatever that view reads; where memory for the answer or the view fails, session and arguments had passed, and a
/// fault is one that the view found.
/// Proved, also of `decide_live` and `decide_unread`: A `snap-delete` or `snap-restore` that the model refuses is refused so,
/// whatever memory and the view do: no fault hides a refusal.
pub fn decide<'a, V: FileView>(
    alloc: Global,
    view: &mut V,
    sessions: &Sessions,
    session: u32,
    call: &'a Call,
) -> Result<Outcome<'a>, CallError<V::Fault>>
    requires { V.holds view.old }
    ensures left { Leaves V.holds V.follows V.is_told V.shows view.old view.new }
    ensures decided { IsTrue V.is_told → (world : World) → Shows world (in_use_of sessions.now) (V.shows view.old) (V.room view.old) (V.names view.old) (V.bytes view.old) → Decides world session call.now result }
    ensures refused { IsTrue V.is_told → (world : World) → Shows world (in_use_of sessions.now) (V.shows view.old) (V.room view.old) (V.names view.old) (V.bytes view.old) → HidesNoRefusal world session call.now result }
    ensures cause { IfView result (λ f. V.causes view.old view.new f) }
    ensures numbers { IfOk result (λ o. IsCall call.now) }
{
    decide_shown(alloc, view, sessions, session, call)
}
