//! read.
ghost use Rattle.std.specs.Prelude.{◌≡◌, ◌≤◌, IsTrue, take, drop, IfOk};
ghost use Rattle.sn_model.specs.declared.call.Call.TheVariants as call;
ghost use Rattle.sn_model.specs.FileCalls as calls;
ghost use Rattle.sn_desc.specs.InUse.{descriptor_of};
ghost use Rattle.sn_desc.specs.Sessions.{in_use_of};
ghost use Rattle.sn_core_decide_rules.specs.Decided.{DecidesShown};
ghost use Rattle.sn_core_decide_rules.specs.Faults.{IfLookUp, IfView};
ghost use Rattle.sn_walk.specs.Frame.{Leaves};

use sn_core_decide_rules::{CallError, FileFault, FileView, asks, count_argument, logged_in};
use sn_desc::{OpenFile, Sessions};
use sn_model::{Caller, FileData, Outcome, Reply};
use std::alloc::Global;

/// The outcome of a read from an open file.
fn reads<V: FileView>(
    alloc: Global,
    view: &mut V,
    fd: u32,
    file: &OpenFile,
    count: u64,
) -> Result<Outcome<'static>, FileFault<V::Fault>>
    requires holds { V.holds view.old }
    requires few { count ≤ 65536 }
    ensures left { Leaves V.holds V.follows V.is_told V.shows view.old view.new }
    ensures found { IsTrue V.is_told → IfOk result (λ o. o ≡ calls.reads fd (descriptor_of file.now) (take count (drop file.now.offset (V.bytes view.old file.now.home file.now.number)))) }
    ensures cause { IfLookUp result (λ f. V.causes view.old view.new f) }
{
    let bytes = view.read(alloc, &file.home, file.number, file.offset, count as usize)?;
    let offset = file.offset + bytes.len() as u64;
    Ok(asks(
        Caller::Moves { fd, offset },
        Reply::Content(FileData::new(bytes)),
    ))
}

/// The outcome of read: so many bytes from the descriptor's offset on, or as many as there are before the end of the file,
/// which it moves past (POSIX.1-2017 `read`). The file's own rights aren't asked for again. EBADF is returned where the
/// session has no such descriptor, or it isn't open for reading.
#[tactic(auto, unfolding(sn_model::specs::FileCalls::read_outcome))]
pub fn decide_read<V: FileView>(
    alloc: Global,
    view: &mut V,
    sessions: &Sessions,
    session: u32,
    fd: u32,
    count: u64,
) -> Result<Outcome<'static>, CallError<V::Fault>>
    requires { V.holds view.old }
    ensures left { Leaves V.holds V.follows V.is_told V.shows view.old view.new }
    ensures decided { IsTrue V.is_told → DecidesShown (in_use_of sessions.now) (V.shows view.old) (V.room view.old) (V.names view.old) (V.bytes view.old) session (call.Read fd count) result }
    ensures cause { IfView result (λ f. V.causes view.old view.new f) }
{
    logged_in(sessions, session)?;
    let count = count_argument(count)?;
    let file = sessions.readable(session, fd)?;
    Ok(reads(alloc, view, fd, file, count)?)
}
