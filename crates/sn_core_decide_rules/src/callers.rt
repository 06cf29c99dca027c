//! Who calls, and what was decided.
ghost use Rattle.std.specs.Prelude.{◌≡◌};
ghost use Rattle.sn_model.specs.Tests.{logged_in, logged_out};
ghost use Rattle.sn_walk.specs.Gives.{Answers};
ghost use Rattle.sn_desc.specs.Sessions.{in_use_of};
ghost use Rattle.sn_core_decide_rules.specs.Faults.{answer_of};
ghost use Rattle.sn_core_decide_rules.specs.Shown.{alone};

use crate::fault::CallError;
use sn_desc::Sessions;
use sn_model::{Outcome, Refusal, Session};
use sn_walk::Failure;

/// What was decided, as the outcome of a call.
pub fn decided<'a, F>(
    outcome: Result<Outcome<'a>, Failure<Refusal, F>>,
) -> Result<Outcome<'a>, CallError<F>>
    ensures { result ≡ answer_of outcome.entry }
{
    Ok(outcome?)
}

/// The session with this number, which has to be logged in: EINVAL where there is no such session, and EBADF where nobody is.
///
/// Proved, also of `logged_out`: Whoever calls is logged in, or refused with `EBADF`; who logs in isn't, or is refused with
/// `EBUSY`.
pub fn logged_in(sessions: &Sessions, session: u32) -> Result<&Session, Refusal>
    ensures { Answers (λ s. s.now) result (logged_in (alone (in_use_of sessions.now)) session) }
{
    sessions.logged_in(session)
}

/// Whether nobody is logged in under this number: EINVAL where there is no such session, and EBUSY where somebody is.
pub fn logged_out(sessions: &Sessions, session: u32) -> Result<(), Refusal>
    ensures { result ≡ logged_out (alone (in_use_of sessions.now)) session }
{
    sessions.logged_out(session)
}
