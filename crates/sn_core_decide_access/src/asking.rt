//! stat, access and getacl, which ask for what is known of an object.
ghost use Rattle.std.specs.Prelude.{◌≡◌, IsTrue, IfOk, IfErr};
ghost use Rattle.sn_model.specs.Calls.{stat_outcome, status_of};
ghost use Rattle.sn_walk.specs.Gives.{Gives, IfFault};
ghost use Rattle.sn_model.specs.declared.call.Call.TheVariants as call;
ghost use Rattle.sn_desc.specs.Sessions.{in_use_of};
ghost use Rattle.sn_core_decide_rules.specs.Decided.{DecidesShown};
ghost use Rattle.sn_core_decide_rules.specs.Faults.{IfView};
ghost use Rattle.sn_model.specs.AccessCalls as calls;
ghost use Rattle.sn_model.specs.Outcomes.{tells};
ghost use Rattle.sn_walk.specs.Frame.{Leaves};

use crate::rights::has_acl;
use sn_acl::Acl;
use sn_core_decide_rules::{
    CallError, FileView, asks, decided, full, granted, live_if, logged_in, path_argument,
};
use sn_desc::Sessions;
use sn_model::{
    Access, AclKind, Caller, FileStatus, Outcome, PathNumber, Refusal, Reply, Session, StoredAcl,
    Word,
};
use sn_walk::{Attributes, Failure, Object, Path, TreeView};
use std::alloc::Global;

fn status_of(number: u16, a: &Attributes) -> FileStatus
    ensures { result ≡ status_of number a.now }
{
    FileStatus {
        kind: a.kind,
        set_gid: a.set_gid,
        sticky: a.sticky,
        mode: a.acl.mode(),
        links: a.links,
        owner: a.owner,
        group: a.group,
        size: a.size,
        number,
    }
}

/// The outcome of stat.
#[tactic(auto, unfolding(sn_model::specs::Calls::stat_outcome))]
fn stat<'a, V: TreeView>(
    view: &mut V,
    caller: &Session,
    path: &Path<'a>,
) -> Result<Outcome<'a>, Failure<Refusal, V::Fault>>
    requires { V.holds view.old }
    ensures left { Leaves V.holds V.follows V.is_told V.shows view.old view.new }
    ensures exact { IsTrue V.is_told → Gives (λ o. o) result (stat_outcome (V.shows view.old) caller.now path.now) }
    ensures cause { IfFault result (λ f. V.causes view.old view.new f) }
{
    let found = full(view, &caller.cred, PathNumber::FIRST, path)?;
    let status = status_of(found.object.number(), &found.attributes);
    Ok(asks(Caller::Stays, Reply::Status(status)))
}

/// The outcome of stat: what is known of a node (POSIX.1-2017 `stat`).
///
/// Proved, also of `decide_access`, `decide_getacl`, `decide_chmod`, `decide_chown` and `decide_setacl`: The outcome of
/// a call that asks for attributes and rights or sets them, or its first refusal, is the model's in each world that the
/// sessions and a view show, whatever that view reads.
pub fn decide_stat<'a, V: FileView>(
    view: &mut V,
    sessions: &Sessions,
    session: u32,
    path: &'a Word,
) -> Result<Outcome<'a>, CallError<V::Fault>>
    requires { V.holds view.old }
    ensures left { Leaves V.holds V.follows V.is_told V.shows view.old view.new }
    ensures decided { IsTrue V.is_told → DecidesShown (in_use_of sessions.now) (V.shows view.old) (V.room view.old) (V.names view.old) (V.bytes view.old) session (call.Stat path.now) result }
    ensures cause { IfView result (λ f. V.causes view.old view.new f) }
{
    let caller = logged_in(sessions, session)?;
    let path = path_argument(path)?;
    decided(stat(view, caller, &path))
}

/// The outcome of access.
#[tactic(auto, unfolding(sn_model::specs::AccessCalls::access_outcome))]
fn access<V: TreeView>(
    view: &mut V,
    caller: &Session,
    path: &Path<'_>,
    want: Access,
) -> Result<Outcome<'static>, Failure<Refusal, V::Fault>>
    requires { V.holds view.old }
    ensures left { Leaves V.holds V.follows V.is_told V.shows view.old view.new }
    ensures exact { IsTrue V.is_told → Gives (λ o. o) result (calls.access_outcome (V.shows view.old) caller.now path.now want) }
    ensures cause { IfFault result (λ f. V.causes view.old view.new f) }
{
    let found = full(view, &caller.cred, PathNumber::FIRST, path)?;
    live_if(want.write, &found.object)?;
    granted(
        &caller.cred,
        PathNumber::FIRST,
        found.place,
        want,
        &found.attributes,
    )?;
    Ok(asks(Caller::Stays, Reply::Done))
}

/// The outcome of access: it passes where the ACL grants all that is wanted (POSIX.1-2017 `access`, acl(5)).
pub fn decide_access<V: FileView>(
    view: &mut V,
    sessions: &Sessions,
    session: u32,
    path: &Word,
    want: Access,
) -> Result<Outcome<'static>, CallError<V::Fault>>
    requires { V.holds view.old }
    ensures left { Leaves V.holds V.follows V.is_told V.shows view.old view.new }
    ensures decided { IsTrue V.is_told → DecidesShown (in_use_of sessions.now) (V.shows view.old) (V.room view.old) (V.names view.old) (V.bytes view.old) session (call.Access path.now want) result }
    ensures cause { IfView result (λ f. V.causes view.old view.new f) }
{
    let caller = logged_in(sessions, session)?;
    let path = path_argument(path)?;
    decided(access(view, caller, &path, want))
}

/// The default ACL of an object. The directory of snapshots has none.
pub(crate) fn default_acl_at<V: TreeView>(
    view: &mut V,
    object: &Object,
) -> Result<Option<Acl>, V::Fault>
    requires { V.holds view.old }
    ensures left { Leaves V.holds V.follows V.is_told V.shows view.old view.new }
    ensures found { IsTrue V.is_told → IfOk result (λ a. a ≡ calls.default_acl_at (V.shows view.old) object.now) }
    ensures cause { IfErr result (λ f. V.causes view.old view.new f) }
{
    match object {
        Object::Node { home, number } => view.default_acl(home, *number),
        Object::Snapshots => Ok(None),
    }
}

/// The answer of getacl, which a reply has to find memory for: the ACL of this kind, as it is stored.
#[tactic(auto, unfolding(sn_model::specs::AccessCalls::getacl_outcome))]
fn getacl<V: TreeView>(
    view: &mut V,
    caller: &Session,
    path: &Path<'_>,
    kind: AclKind,
) -> Result<Option<Acl>, Failure<Refusal, V::Fault>>
    requires { V.holds view.old }
    ensures left { Leaves V.holds V.follows V.is_told V.shows view.old view.new }
    ensures exact { IsTrue V.is_told → Gives (λ acl. tells (Reply.Acl acl)) result (calls.getacl_outcome (V.shows view.old) caller.now path.now kind) }
    ensures cause { IfFault result (λ f. V.causes view.old view.new f) }
{
    let found = full(view, &caller.cred, PathNumber::FIRST, path)?;
    has_acl(kind, &found.attributes)?;
    match kind {
        AclKind::Access => Ok(Some(found.attributes.acl.copy())),
        AclKind::Default => match default_acl_at(view, &found.object) {
            Ok(acl) => Ok(acl),
            Err(fault) => Err(Failure::Fault(fault)),
        },
    }
}

/// The outcome of getacl: an ACL of a node (acl(5)). `Memory` is returned where there is none for its text.
pub fn decide_getacl<V: FileView>(
    alloc: Global,
    view: &mut V,
    sessions: &Sessions,
    session: u32,
    path: &Word,
    kind: AclKind,
) -> Result<Outcome<'static>, CallError<V::Fault>>
    requires { V.holds view.old }
    ensures left { Leaves V.holds V.follows V.is_told V.shows view.old view.new }
    ensures decided { IsTrue V.is_told → DecidesShown (in_use_of sessions.now) (V.shows view.old) (V.room view.old) (V.names view.old) (V.bytes view.old) session (call.GetAcl path.now kind) result }
    ensures cause { IfView result (λ f. V.causes view.old view.new f) }
{
    let caller = logged_in(sessions, session)?;
    let path = path_argument(path)?;
    let acl = getacl(view, caller, &path, kind)?;
    let told = Reply::Acl(StoredAcl::of_option(alloc, acl.as_ref())?);
    Ok(asks(Caller::Stays, told))
}
