//! unlink.
ghost use Rattle.std.specs.Prelude.{◌≡◌, IsTrue};
ghost use Rattle.sn_model.specs.FileCalls as calls;
ghost use Rattle.sn_walk.specs.Gives.{Gives, IfFault};
ghost use Rattle.sn_core_decide_names.specs.Unlinking.{unlink_in};
ghost use Rattle.sn_model.specs.declared.call.Call.TheVariants as call;
ghost use Rattle.sn_desc.specs.Sessions.{in_use_of};
ghost use Rattle.sn_core_decide_rules.specs.Decided.{DecidesShown};
ghost use Rattle.sn_core_decide_rules.specs.Faults.{IfView};
ghost use Rattle.sn_walk.specs.Frame.{Leaves};

use sn_core_decide_rules::{
    CallError, FileView, decided, does, live, logged_in, no_directory, parent_of, path_argument,
    prefix, sticky, there, unlink_charge, writable_parent,
};
use sn_desc::Sessions;
use sn_limits::Limits;
use sn_model::{Bytes, Change, Errno, Outcome, PathNumber, Refusal, Session, Word};
use sn_walk::{Failure, Found, Object, Path, TreeView};

/// A name that is removed from the directory that it was walked to in.
fn unlink_in<'a, V: TreeView>(
    limits: &Limits,
    view: &mut V,
    caller: &Session,
    path: &Path<'a>,
    directory: &Object,
    place: u16,
    found: &Found,
) -> Result<Outcome<'a>, Failure<Refusal, V::Fault>>
    requires { V.holds view.old }
    ensures left { Leaves V.holds V.follows V.is_told V.shows view.old view.new }
    ensures exact { IsTrue V.is_told → Gives (λ o. o) result (unlink_in limits.now (V.shows view.old) caller.now path.now directory.now place found.now) }
    ensures cause { IfFault result (λ f. V.causes view.old view.new f) }
{
    let attributes = writable_parent(view, &caller.cred, PathNumber::FIRST, place, directory)?;
    sticky(&caller.cred, PathNumber::FIRST, &attributes, found)?;
    let removed = Change::Remove {
        directory: directory.number(),
        name: Bytes::new(path.last().unwrap_or(b"")),
    };
    Ok(does(unlink_charge(limits), removed))
}

/// The outcome of unlink: a name of a file is removed.
#[tactic(auto, unfolding(sn_model::specs::FileCalls::unlink_outcome))]
fn unlink<'a, V: TreeView>(
    limits: &Limits,
    view: &mut V,
    caller: &Session,
    path: &Path<'a>,
) -> Result<Outcome<'a>, Failure<Refusal, V::Fault>>
    requires { V.holds view.old }
    ensures left { Leaves V.holds V.follows V.is_told V.shows view.old view.new }
    ensures exact { IsTrue V.is_told → Gives (λ o. o) result (calls.unlink_outcome limits.now (V.shows view.old) caller.now path.now) }
    ensures cause { IfFault result (λ f. V.causes view.old view.new f) }
{
    let walked = prefix(view, &caller.cred, PathNumber::FIRST, path)?;
    let parent = parent_of(Errno::Eperm, &walked);
    let found = there(view, walked)?;
    no_directory(&found)?;
    live(&found.object)?;
    let (parent, place) = parent?;
    unlink_in(limits, view, caller, path, &parent, place, &found)
}

/// The outcome of unlink: the name is removed, and the file once nobody has it open (POSIX.1-2017
/// `unlink`). It needs write and search in the directory, and in a sticky one ownership.
pub fn decide_unlink<'a, V: FileView>(
    view: &mut V,
    sessions: &Sessions,
    session: u32,
    path: &'a Word,
) -> Result<Outcome<'a>, CallError<V::Fault>>
    requires { V.holds view.old }
    ensures left { Leaves V.holds V.follows V.is_told V.shows view.old view.new }
    ensures decided { IsTrue V.is_told → DecidesShown (in_use_of sessions.now) (V.shows view.old) (V.room view.old) (V.names view.old) (V.bytes view.old) session (call.Unlink path.now) result }
    ensures cause { IfView result (λ f. V.causes view.old view.new f) }
{
    let caller = logged_in(sessions, session)?;
    let path = path_argument(path)?;
    decided(unlink(&Limits::WRITTEN, view, caller, &path))
}
