//! write.
ghost use Rattle.std.specs.Prelude.{◌≡◌, ◌<◌, ◌+◌, IsTrue, length, IfOk, IfErr};
ghost use Rattle.sn_limits.specs.Versions.{limits_written};
ghost use Rattle.sn_model.specs.declared.call.Call.TheVariants as call;
ghost use Rattle.sn_model.specs.FileCalls as calls;
ghost use Rattle.sn_desc.specs.InUse.{descriptor_of};
ghost use Rattle.sn_desc.specs.Sessions.{in_use_of};
ghost use Rattle.sn_walk.specs.Gives.{Answers};
ghost use Rattle.sn_core_decide_rules.specs.Decided.{DecidesShown};
ghost use Rattle.sn_core_decide_rules.specs.Faults.{IfView};
ghost use Rattle.sn_walk.specs.Frame.{Leaves};

use sn_core_decide_rules::{
    CallError, FileView, asks, blocks_spanned, bytes_argument, logged_in, write_charge,
};
use sn_desc::{OpenFile, Sessions};
use sn_limits::Limits;
use sn_model::{
    AskedPoint, Bytes, Caller, Change, Errno, FileData, Outcome, Pending, Refusal, Reply,
};

/// Where bytes end that begin at an offset. It is EFBIG where no file can be so large.
pub(crate) fn end_of(offset: u64, count: u64) -> Result<u64, Refusal>
    ensures fits { Answers (λ _. tt) result (calls.is_size limits_written (offset + count)) }
    ensures end { IfOk result (λ end. end ≡ offset + count) }
{
    match offset.checked_add(count) {
        Some(end) if end <= Limits::WRITTEN.largest_file => Ok(end),
        _ => Err(Refusal::plain(Errno::Efbig)),
    }
}

/// The outcome of a write of some bytes.
#[tactic(auto, unfolding(sn_model::specs::FileCalls::write_some))]
fn write_some<'a>(
    fd: u32,
    number: u16,
    offset: u64,
    bytes: &'a [u8],
) -> Result<Outcome<'a>, Refusal>
    requires { 0 < length bytes.now }
    ensures { Answers (λ o. o) result (calls.write_some limits_written fd number offset bytes.now) }
{
    let count = bytes.len() as u64;
    let end = end_of(offset, count)?;
    let blocks = blocks_spanned(offset, bytes.len());
    Ok(Outcome {
        charge: write_charge(&Limits::WRITTEN, blocks) as u64,
        change: Pending::Does(Change::Write {
            number,
            offset,
            bytes: Bytes::new(bytes),
        }),
        caller: Caller::Moves { fd, offset: end },
        told: Reply::Number(count),
        point: AskedPoint::Unasked,
    })
}

/// Where a write to an open file begins.
fn write_offset<V: FileView>(view: &mut V, file: &OpenFile) -> Result<u64, V::Fault>
    requires { V.holds view.old }
    ensures left { Leaves V.holds V.follows V.is_told V.shows view.old view.new }
    ensures found { IsTrue V.is_told → IfOk result (λ offset. offset ≡ calls.write_offset (descriptor_of file.now) (V.bytes view.old file.now.home file.now.number)) }
    ensures cause { IfErr result (λ f. V.causes view.old view.new f) }
{
    if file.appends {
        view.size(&file.home, file.number)
    } else {
        Ok(file.offset)
    }
}

/// The outcome of write: the bytes are put at the descriptor's offset, or at the end of a file that is appended to, and the
/// offset moves past them (POSIX.1-2017 `write`). A write of no bytes changes nothing. EBADF is returned where the session has no
/// such descriptor, or it isn't open for writing; EFBIG where they would end past the largest file, and then none is written.
#[tactic(auto, unfolding(sn_model::specs::FileCalls::write_outcome))]
pub fn decide_write<'a, V: FileView>(
    view: &mut V,
    sessions: &Sessions,
    session: u32,
    fd: u32,
    bytes: &'a FileData,
) -> Result<Outcome<'a>, CallError<V::Fault>>
    requires { V.holds view.old }
    ensures left { Leaves V.holds V.follows V.is_told V.shows view.old view.new }
    ensures decided { IsTrue V.is_told → DecidesShown (in_use_of sessions.now) (V.shows view.old) (V.room view.old) (V.names view.old) (V.bytes view.old) session (call.Write fd bytes.now) result }
    ensures cause { IfView result (λ f. V.causes view.old view.new f) }
{
    logged_in(sessions, session)?;
    let bytes = bytes_argument(bytes.as_bytes())?;
    let file = sessions.writable(session, fd)?;
    if bytes.is_empty() {
        return Ok(asks(Caller::Stays, Reply::Number(0)));
    }
    let offset = match write_offset(view, file) {
        Ok(offset) => offset,
        Err(fault) => return Err(CallError::View(fault)),
    };
    Ok(write_some(fd, file.number, offset, bytes)?)
}
