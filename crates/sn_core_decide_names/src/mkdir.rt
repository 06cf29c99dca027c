//! mkdir.
ghost use Rattle.std.specs.Prelude.{◌≡◌, IsTrue};
ghost use Rattle.sn_limits.specs.declared.kind.Kind.TheVariants.{Directory};
ghost use Rattle.sn_model.specs.Calls.{mkdir_outcome};
ghost use Rattle.sn_model.specs.FileCalls.{first_ownership};
ghost use Rattle.sn_walk.specs.Gives.{Gives, IfFault};
ghost use Rattle.sn_core_decide_rules.specs.Views.{seen_by};
ghost use Rattle.sn_model.specs.declared.call.Call.TheVariants as call;
ghost use Rattle.sn_desc.specs.Sessions.{in_use_of};
ghost use Rattle.sn_core_decide_rules.specs.Decided.{DecidesShown};
ghost use Rattle.sn_core_decide_rules.specs.Faults.{IfView};
ghost use Rattle.sn_walk.specs.Frame.{Leaves};

use sn_acl::{Acl, Inherited, Mode, inherit};
use sn_core_decide_rules::{
    CallError, CallView, FileView, decided, given_in, live, logged_in, name_charge,
    new_mode_argument, not_present, path_argument, prefix, writable_parent,
};
use sn_desc::Sessions;
use sn_limits::{Kind, Limits};
use sn_model::{
    AskedPoint, Bytes, Caller, Outcome, Ownership, PathNumber, Pending, Refusal, Reply, Session,
    Word,
};
use sn_walk::{Attributes, Failure, Path};

/// What a directory is given that a session makes in a directory.
fn new_directory(
    caller: &Session,
    mode: Mode,
    parent: &Attributes,
    default_acl: Option<Acl>,
) -> Ownership
    ensures { result ≡ first_ownership Directory caller.now mode parent.now default_acl }
{
    let Inherited { access, default } = inherit(default_acl.as_ref(), mode, caller.umask, true);
    Ownership {
        owner: caller.cred.uid(),
        group: if parent.set_gid {
            parent.group
        } else {
            caller.cred.gid()
        },
        set_gid: parent.set_gid,
        sticky: false,
        acl: access,
        default_acl: default,
    }
}

/// The outcome of mkdir: a new directory under a name that isn't there yet.
#[tactic(auto, unfolding(sn_model::specs::Calls::mkdir_outcome))]
fn mkdir<'a, V: CallView>(
    limits: &Limits,
    view: &mut V,
    caller: &Session,
    path: &Path<'a>,
    mode: Mode,
) -> Result<Outcome<'a>, Failure<Refusal, V::Fault>>
    requires { V.holds view.old }
    ensures left { Leaves V.holds V.follows V.is_told V.shows view.old view.new }
    ensures exact { IsTrue V.is_told → Gives (λ o. o) result (mkdir_outcome limits.now (seen_by (V.shows view.old) (V.room view.old) (V.names view.old)) caller.now path.now mode) }
    ensures cause { IfFault result (λ f. V.causes view.old view.new f) }
{
    let walked = prefix(view, &caller.cred, PathNumber::FIRST, path)?;
    let (parent, place) = not_present(walked)?;
    let directory = live(&parent)?;
    let attributes = writable_parent(view, &caller.cred, PathNumber::FIRST, place, &parent)?;
    let default_acl = given_in(view, directory)?;
    Ok(Outcome {
        charge: name_charge(limits),
        change: Pending::Makes {
            directory,
            name: Bytes::new(path.last().unwrap_or(b"")),
            kind: Kind::Directory,
            ownership: new_directory(caller, mode, &attributes, default_acl),
        },
        caller: Caller::Stays,
        told: Reply::Done,
        point: AskedPoint::Unasked,
    })
}

/// The outcome of mkdir: a new directory, where the caller may write (POSIX.1-2017 `mkdir`). EINVAL is returned for a mode above
/// 01777.
///
/// Proved, also of `decide_rmdir`, `decide_unlink`, `decide_link` and `decide_readdir`: The outcome of a call that
/// makes, removes or lists names, or its first refusal, is the model's in each world that the sessions and a view show,
/// whatever that view reads.
pub fn decide_mkdir<'a, V: FileView>(
    view: &mut V,
    sessions: &Sessions,
    session: u32,
    path: &'a Word,
    mode: u16,
) -> Result<Outcome<'a>, CallError<V::Fault>>
    requires { V.holds view.old }
    ensures left { Leaves V.holds V.follows V.is_told V.shows view.old view.new }
    ensures decided { IsTrue V.is_told → DecidesShown (in_use_of sessions.now) (V.shows view.old) (V.room view.old) (V.names view.old) (V.bytes view.old) session (call.Mkdir path.now mode) result }
    ensures cause { IfView result (λ f. V.causes view.old view.new f) }
{
    let caller = logged_in(sessions, session)?;
    let path = path_argument(path)?;
    let mode = new_mode_argument(mode)?;
    decided(mkdir(&Limits::WRITTEN, view, caller, &path, mode))
}
