//! rmdir.
ghost use Rattle.std.specs.Prelude.{◌≡◌, IsTrue};
ghost use Rattle.sn_model.specs.NameCalls as calls;
ghost use Rattle.sn_walk.specs.Gives.{Gives, IfFault};
ghost use Rattle.sn_core_decide_rules.specs.Views.{seen_by};
ghost use Rattle.sn_model.specs.declared.call.Call.TheVariants as call;
ghost use Rattle.sn_desc.specs.Sessions.{in_use_of};
ghost use Rattle.sn_core_decide_rules.specs.Decided.{DecidesShown};
ghost use Rattle.sn_core_decide_rules.specs.Faults.{IfView};
ghost use Rattle.sn_walk.specs.Frame.{Leaves};

use sn_core_decide_rules::{
    CallError, CallView, FileView, decided, does, empty, is_listable, live, logged_in, name_charge,
    parent_of, path_argument, prefix, sticky, there, writable_parent,
};
use sn_desc::Sessions;
use sn_limits::Limits;
use sn_model::{Bytes, Change, Errno, Outcome, PathNumber, Refusal, Session, Word};
use sn_walk::{Failure, Found, Object, Path};

/// A directory that is removed from the one that its name was walked to in.
fn rmdir_in<'a, V: CallView>(
    limits: &Limits,
    view: &mut V,
    caller: &Session,
    path: &Path<'a>,
    parent: &Object,
    place: u16,
    found: &Found,
) -> Result<Outcome<'a>, Failure<Refusal, V::Fault>>
    requires { V.holds view.old }
    ensures left { Leaves V.holds V.follows V.is_told V.shows view.old view.new }
    ensures exact { IsTrue V.is_told → Gives (λ o. o) result (calls.rmdir_in limits.now (seen_by (V.shows view.old) (V.room view.old) (V.names view.old)) caller.now path.now parent.now place found.now) }
    ensures cause { IfFault result (λ f. V.causes view.old view.new f) }
{
    let number = live(&found.object)?;
    let attributes = writable_parent(view, &caller.cred, PathNumber::FIRST, place, parent)?;
    sticky(&caller.cred, PathNumber::FIRST, &attributes, found)?;
    empty(view, number)?;
    Ok(does(
        name_charge(limits),
        Change::Remove {
            directory: parent.number(),
            name: Bytes::new(path.last().unwrap_or(b"")),
        },
    ))
}

/// The outcome of rmdir: an empty directory is removed.
#[tactic(auto, unfolding(sn_model::specs::NameCalls::rmdir_outcome))]
fn rmdir<'a, V: CallView>(
    limits: &Limits,
    view: &mut V,
    caller: &Session,
    path: &Path<'a>,
) -> Result<Outcome<'a>, Failure<Refusal, V::Fault>>
    requires { V.holds view.old }
    ensures left { Leaves V.holds V.follows V.is_told V.shows view.old view.new }
    ensures exact { IsTrue V.is_told → Gives (λ o. o) result (calls.rmdir_outcome limits.now (seen_by (V.shows view.old) (V.room view.old) (V.names view.old)) caller.now path.now) }
    ensures cause { IfFault result (λ f. V.causes view.old view.new f) }
{
    let walked = prefix(view, &caller.cred, PathNumber::FIRST, path)?;
    let (parent, place) = parent_of(Errno::Ebusy, &walked)?;
    let found = there(view, walked)?;
    is_listable(&found)?;
    rmdir_in(limits, view, caller, path, &parent, place, &found)
}

/// The outcome of rmdir: an empty directory is removed (POSIX.1-2017 `rmdir`).
pub fn decide_rmdir<'a, V: FileView>(
    view: &mut V,
    sessions: &Sessions,
    session: u32,
    path: &'a Word,
) -> Result<Outcome<'a>, CallError<V::Fault>>
    requires { V.holds view.old }
    ensures left { Leaves V.holds V.follows V.is_told V.shows view.old view.new }
    ensures decided { IsTrue V.is_told → DecidesShown (in_use_of sessions.now) (V.shows view.old) (V.room view.old) (V.names view.old) (V.bytes view.old) session (call.Rmdir path.now) result }
    ensures cause { IfView result (λ f. V.causes view.old view.new f) }
{
    let caller = logged_in(sessions, session)?;
    let path = path_argument(path)?;
    decided(rmdir(&Limits::WRITTEN, view, caller, &path))
}
