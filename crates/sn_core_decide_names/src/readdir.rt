//! readdir.
ghost use Rattle.std.specs.Prelude.{◌≡◌, IsTrue};
ghost use Rattle.sn_model.specs.NameCalls as calls;
ghost use Rattle.sn_model.specs.Outcomes.{tells};
ghost use Rattle.sn_walk.specs.Gives.{Gives, IfFault};
ghost use Rattle.sn_core_decide_rules.specs.Views.{seen_by};
ghost use Rattle.sn_model.specs.declared.call.Call.TheVariants as call;
ghost use Rattle.sn_desc.specs.Sessions.{in_use_of};
ghost use Rattle.sn_core_decide_rules.specs.Decided.{DecidesShown};
ghost use Rattle.sn_core_decide_rules.specs.Faults.{IfView};
ghost use Rattle.sn_walk.specs.Frame.{Leaves};

use sn_core_decide_rules::{
    CallError, CallView, FileView, asks, full, granted, is_listable, logged_in, path_argument,
};
use sn_desc::Sessions;
use sn_model::{Access, Caller, Outcome, PathNumber, Refusal, Reply, Session, Word};
use sn_walk::{Failure, Object, Path};
use std::alloc::Global;

/// The directory whose names readdir lists, for which a reply has to find memory.
#[tactic(auto, unfolding(sn_model::specs::NameCalls::readdir_outcome))]
fn readdir<V: CallView>(
    view: &mut V,
    caller: &Session,
    path: &Path<'_>,
) -> Result<Object, Failure<Refusal, V::Fault>>
    requires { V.holds view.old }
    ensures left { Leaves V.holds V.follows V.is_told V.shows view.old view.new }
    ensures exact { IsTrue V.is_told → Gives (λ directory. tells (Reply.Names ((V.names view.old).listed directory))) result (calls.readdir_outcome (seen_by (V.shows view.old) (V.room view.old) (V.names view.old)) caller.now path.now) }
    ensures cause { IfFault result (λ f. V.causes view.old view.new f) }
{
    let found = full(view, &caller.cred, PathNumber::FIRST, path)?;
    is_listable(&found)?;
    let want = Access {
        read: true,
        write: false,
        execute: false,
    };
    granted(
        &caller.cred,
        PathNumber::FIRST,
        found.place,
        want,
        &found.attributes,
    )?;
    Ok(found.object)
}

/// The outcome of readdir: the names in a directory (POSIX.1-2017 `readdir`). `Memory` is returned where there is none for them.
pub fn decide_readdir<V: FileView>(
    alloc: Global,
    view: &mut V,
    sessions: &Sessions,
    session: u32,
    path: &Word,
) -> Result<Outcome<'static>, CallError<V::Fault>>
    requires { V.holds view.old }
    ensures left { Leaves V.holds V.follows V.is_told V.shows view.old view.new }
    ensures decided { IsTrue V.is_told → DecidesShown (in_use_of sessions.now) (V.shows view.old) (V.room view.old) (V.names view.old) (V.bytes view.old) session (call.Readdir path.now) result }
    ensures cause { IfView result (λ f. V.causes view.old view.new f) }
{
    let caller = logged_in(sessions, session)?;
    let path = path_argument(path)?;
    let directory = readdir(view, caller, &path)?;
    let names = view.listed(alloc, &directory)?;
    Ok(asks(Caller::Stays, Reply::Names(names)))
}
