//! What becomes of a caller's session and its descriptors.
ghost use Rattle.std.specs.Prelude.{◌≡◌, ◌+◌, ◌-◌, ◌<◌, ◌≤◌, ℕ, true, Ok, if◌then◌else◌};
ghost use Rattle.arrayvec.specs.ArrayVec.{array_vec_len};
ghost use Rattle.sn_caller.specs.Called.{CanTurn, HasRoomNow, TellsReleased, WereHeld};
ghost use Rattle.sn_desc.specs.InUse.{descriptor_of, in_world, live_in};
ghost use Rattle.sn_desc.specs.Sessions.{in_use_of};
ghost use Rattle.sn_model.specs.Descriptors.{is_held_in, next_descriptor, opened};
ghost use Rattle.sn_model.specs.Outcomes.{is_opening};
ghost use Rattle.sn_model.specs.Steps.{with_caller};
ghost use Rattle.sn_model.specs.World.{World};

use sn_desc::{OpenFile, Released, SESSIONS, Sessions};
use sn_model::Caller;

/// Opens a file under the session's next descriptor, if there is such a session and it has one left.
fn open(sessions: &mut Sessions, session: u32, file: OpenFile)
    requires { 0 < (in_use_of sessions.old).room }
    ensures opened { session < 64 → (fd : ℕ) → next_descriptor (in_use_of sessions.old).descriptors session ≡ Ok fd
        → in_use_of sessions.new ≡ record (in_use_of sessions.old) { descriptors = opened (in_use_of sessions.old).descriptors session fd (descriptor_of file); room = (in_use_of sessions.old).room - 1 } }
    ensures holds { (number : ℕ) → is_held_in (in_use_of sessions.old).descriptors number ≡ true → is_held_in (in_use_of sessions.new).descriptors number ≡ true }
    ensures few { live_in (in_use_of sessions.new).descriptors ≤ live_in (in_use_of sessions.old).descriptors + 1 }
{
    if session < SESSIONS {
        match sessions.open(session, file) {
            Ok(_) => {}
            // A session whose call was decided has its next descriptor.
            Err(_) => {}
        }
    }
}

/// Closes a descriptor, and returns the live file that no descriptor has any more.
fn close(sessions: &mut Sessions, session: u32, fd: u32) -> Released
    ensures world { (world : World) → in_world (in_use_of sessions.new) world ≡ with_caller (in_world (in_use_of sessions.old) world) session (Caller.Closes fd) }
    ensures released { (world : World) → TellsReleased (in_world (in_use_of sessions.old) world) (in_world (in_use_of sessions.new) world) result.items }
    ensures held { (world : World) → WereHeld (in_world (in_use_of sessions.old) world) result.items }
    ensures few { array_vec_len result + live_in (in_use_of sessions.new).descriptors ≤ live_in (in_use_of sessions.old).descriptors }
{
    let mut released = Released::new();
    if let Some(number) = sessions.close_if_open(session, fd) {
        released.push(number);
    }
    released
}

/// Sets what becomes of a caller's session and its descriptors, and returns the live files that no descriptor
/// has any more. What is opened goes under the session's next descriptor; where that isn't the one that was
/// decided, or there is no such session, the clauses say only how many descriptors there are then.
///
/// Proved: Sessions turn without a tree: a caller's session and descriptors become what the model makes of them, over each
/// world; the live files that lose their last descriptor are returned, and these with the descriptors of live files that are
/// left are no more than before and one that is opened.
pub fn turn(sessions: &mut Sessions, session: u32, caller: Caller) -> Released
    requires { HasRoomNow caller (in_use_of sessions.old).room }
    ensures world { (world : World) → CanTurn (in_use_of sessions.old).descriptors (in_use_of sessions.old).room session caller
        → in_world (in_use_of sessions.new) world ≡ with_caller (in_world (in_use_of sessions.old) world) session caller }
    ensures released { (world : World) → TellsReleased (in_world (in_use_of sessions.old) world) (in_world (in_use_of sessions.new) world) result.items }
    ensures held { (world : World) → WereHeld (in_world (in_use_of sessions.old) world) result.items }
    ensures few { array_vec_len result + live_in (in_use_of sessions.new).descriptors ≤ live_in (in_use_of sessions.old).descriptors + (if is_opening caller then 1 else 0) }
{
    match caller {
        Caller::Stays | Caller::OpensNew { .. } => {}
        Caller::LogsIn(new) => sessions.login(session, new),
        Caller::SetsUmask(mask) => sessions.set_umask(session, mask),
        Caller::LogsOut => return sessions.logout(session),
        Caller::Opens {
            fd: _,
            home,
            number,
            flags,
        } => open(
            sessions,
            session,
            OpenFile {
                home,
                number,
                readable: flags.read,
                writable: flags.write,
                appends: flags.append,
                offset: 0,
            },
        ),
        Caller::Closes { fd } => return close(sessions, session, fd),
        Caller::Moves { fd, offset } => sessions.set_offset(session, fd, offset),
    }
    Released::new()
}
