//! close, seek and ftruncate, which ask for no bytes of a file.
ghost use Rattle.sn_limits.specs.Versions.{limits_written};
ghost use Rattle.sn_model.specs.declared.call.Call.TheVariants as call;
ghost use Rattle.sn_model.specs.Steps.{decision};
ghost use Rattle.sn_model.specs.World.{World};
ghost use Rattle.sn_desc.specs.InUse.{in_world};
ghost use Rattle.sn_desc.specs.Sessions.{in_use_of};
ghost use Rattle.sn_walk.specs.Gives.{Answers};

use crate::write::end_of;
use sn_core_decide_rules::{asks, does, logged_in, size_charge};
use sn_desc::Sessions;
use sn_limits::Limits;
use sn_model::{Caller, Change, Errno, Outcome, Refusal, Reply};

/// The outcome of close: the descriptor is closed, and with the last one of a file without names the
/// file is removed (POSIX.1-2017 `close`). EBADF is returned where the session has no such descriptor.
#[tactic(auto, unfolding(sn_model::specs::FileCalls::close_outcome))]
pub fn decide_close(sessions: &Sessions, session: u32, fd: u32) -> Result<Outcome<'static>, Refusal>
    ensures { (world : World) → Answers (λ o. o) result (decision limits_written (in_world (in_use_of sessions.now) world) session (call.Close fd)) }
{
    logged_in(sessions, session)?;
    sessions.get(session, fd)?;
    Ok(asks(Caller::Closes { fd }, Reply::Done))
}

/// The outcome of seek: the descriptor's offset, counted from the beginning of the file, which may
/// be past its end (POSIX.1-2017 `lseek`). EBADF is returned where the session has no such
/// descriptor, EINVAL past the largest file.
#[tactic(auto, unfolding(sn_model::specs::FileCalls::seek_outcome))]
pub fn decide_seek(
    sessions: &Sessions,
    session: u32,
    fd: u32,
    offset: u64,
) -> Result<Outcome<'static>, Refusal>
    ensures { (world : World) → Answers (λ o. o) result (decision limits_written (in_world (in_use_of sessions.now) world) session (call.Seek fd offset)) }
{
    logged_in(sessions, session)?;
    sessions.get(session, fd)?;
    if offset > Limits::WRITTEN.largest_file {
        return Err(Refusal::plain(Errno::Einval));
    }
    Ok(asks(Caller::Moves { fd, offset }, Reply::Number(offset)))
}

/// The outcome of ftruncate: the file has this size, with zeros where it gets longer (POSIX.1-2017 `ftruncate`). EBADF is
/// returned where the session has no such descriptor, or it isn't open for writing; EFBIG where the size is above the largest
/// file's.
#[tactic(auto, unfolding(sn_model::specs::FileCalls::ftruncate_outcome))]
pub fn decide_ftruncate(
    sessions: &Sessions,
    session: u32,
    fd: u32,
    size: u64,
) -> Result<Outcome<'static>, Refusal>
    ensures { (world : World) → Answers (λ o. o) result (decision limits_written (in_world (in_use_of sessions.now) world) session (call.Ftruncate fd size)) }
{
    logged_in(sessions, session)?;
    let file = sessions.writable(session, fd)?;
    let size = end_of(size, 0)?;
    let number = file.number;
    Ok(does(
        size_charge(&Limits::WRITTEN),
        Change::SetSize { number, size },
    ))
}
