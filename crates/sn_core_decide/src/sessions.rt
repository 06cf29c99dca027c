//! login, logout, sync and umask, which ask nothing of the trees.
ghost use Rattle.std.specs.Prelude.{◌≡◌, ◌<◌, ◌^◌};
ghost use Rattle.sn_limits.specs.Versions.{limits_written};
ghost use Rattle.sn_model.specs.Calls.{new_session};
ghost use Rattle.sn_model.specs.Outcomes.{asks};
ghost use Rattle.sn_model.specs.Steps.{decision};
ghost use Rattle.sn_model.specs.World.{World};
ghost use Rattle.sn_walk.specs.Gives.{Answers};
ghost use Rattle.sn_desc.specs.InUse.{in_world};
ghost use Rattle.sn_desc.specs.Sessions.{in_use_of};
ghost use Rattle.sn_model.specs.declared.call.Call.TheVariants as call;

use sn_acl::{Cred, Mode, Permissions};
use sn_core_decide_rules::{asks, logged_in, logged_out, new_mode_argument, points};
use sn_desc::Sessions;
use sn_model::{AskedPoint, Caller, Groups, Outcome, Pending, Refusal, Reply, Session};

/// The outcome of a login.
fn login(uid: u32, gid: u32, groups: &Groups) -> Outcome<'static>
    ensures outcome { result ≡ asks (Caller.LogsIn (new_session uid gid groups.now)) Reply.Done }
    ensures uid { uid < 2 ^ 32 }
    ensures gid { gid < 2 ^ 32 }
{
    Outcome {
        charge: 0,
        change: Pending::Nothing,
        caller: Caller::LogsIn(Session {
            cred: Cred::new(uid, gid, groups.as_slice()),
            umask: Mode {
                owner: Permissions::NONE,
                group: Permissions::WRITE,
                other: Permissions::WRITE,
            },
        }),
        told: Reply::Done,
        point: AskedPoint::Unasked,
    }
}

/// The outcome of login: nobody may be logged in under the session's number.
pub(crate) fn decide_login(
    sessions: &Sessions,
    session: u32,
    uid: u32,
    gid: u32,
    groups: &Groups,
) -> Result<Outcome<'static>, Refusal>
    ensures decided { (world : World) → Answers (λ o. o) result (decision limits_written (in_world (in_use_of sessions.now) world) session (call.Login uid gid groups.now)) }
    ensures uid { uid < 2 ^ 32 }
    ensures gid { gid < 2 ^ 32 }
{
    logged_out(sessions, session)?;
    Ok(login(uid, gid, groups))
}

/// The outcome of logout: all descriptors of the session are closed, and its number is free.
pub(crate) fn decide_logout(sessions: &Sessions, session: u32) -> Result<Outcome<'static>, Refusal>
    ensures { (world : World) → Answers (λ o. o) result (decision limits_written (in_world (in_use_of sessions.now) world) session call.Logout) }
{
    logged_in(sessions, session)?;
    Ok(asks(Caller::LogsOut, Reply::Done))
}

/// The outcome of sync: nothing changes, after a whole consistency point.
pub(crate) fn decide_sync(sessions: &Sessions, session: u32) -> Result<Outcome<'static>, Refusal>
    ensures { (world : World) → Answers (λ o. o) result (decision limits_written (in_world (in_use_of sessions.now) world) session call.Sync) }
{
    logged_in(sessions, session)?;
    Ok(points(AskedPoint::Plain))
}

/// The outcome of umask: the session has this mask, and is told the old one (POSIX.1-2017 `umask`).
pub(crate) fn decide_umask(
    sessions: &Sessions,
    session: u32,
    mask: u16,
) -> Result<Outcome<'static>, Refusal>
    ensures { (world : World) → Answers (λ o. o) result (decision limits_written (in_world (in_use_of sessions.now) world) session (call.Umask mask)) }
{
    let caller = logged_in(sessions, session)?;
    let mask = new_mode_argument(mask)?;
    Ok(asks(Caller::SetsUmask(mask), Reply::Mode(caller.umask)))
}
