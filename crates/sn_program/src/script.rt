//! Scripts as readers have them.
ghost use Rattle.std.specs.Prelude.{◌≡◌, ◌≢◌, ℕ, ◌+◌, ◌<◌, ◌⊎◌, length, take, IfOk, IfErr, IfSome, IsErrOf};
ghost use Rattle.sn_script.specs.Scripts.{IsFirstBad};
ghost use Rattle.sn_script.specs.declared.fault.ScriptFault.TheVariants as reading;
ghost use Rattle.sn_program.specs.Answers.{AreEventsOf};
ghost use Rattle.sn_program.specs.Fault.{IsOfFile, IsOfScript, IsUnread};
ghost use Rattle.sn_program.specs.declared.fault.ProgramFault.TheVariants as fault;

use crate::fault::{ProgramFault, Which, on_file};
use sn_core::Event;
use sn_script::{SCRIPT_MAX, read_script};
use std::alloc::Global;
use std::io;
use std::io::Read;

/// The bytes of a script, and no more than one byte past the most that a script may have.
fn take_bytes<R: Read + Drop>(alloc: Global, reader: R) -> io::Result<Vec<u8>>
    ensures { IfOk result (λ bytes. IfSome (R.remaining reader) (λ all. bytes.items ≡ take 16777217 all)) }
{
    let mut bytes = Vec::new(alloc);
    reader.take(SCRIPT_MAX as u64 + 1).read_to_end(&mut bytes)?;
    Ok(bytes)
}

/// The same, of the command's script.
fn read_bytes<R: Read + Drop>(alloc: Global, reader: R) -> Result<Vec<u8>, ProgramFault>
    ensures read { IfOk result (λ bytes. IfSome (R.remaining reader) (λ all. bytes.items ≡ take 16777217 all)) }
    ensures faults { IfErr result IsOfFile }
{
    on_file(Which::Script, take_bytes(alloc, reader))
}

/// The events of the script that a reader has left to give, all of it.
///
/// Proved: Of a reader whose bytes are known, the events are those that all of them spell as a script; bytes that spell none
/// are refused with the first bad line, or 0 past 16,777,216 bytes, unless the reader fails or memory is refused.
pub fn read_events<R: Read + Drop>(alloc: Global, reader: R) -> Result<Vec<Event>, ProgramFault>
    // What is read is spelled so, and has at most 16,777,216 bytes.
    ensures found { IfOk result (λ events. AreEventsOf (R.remaining reader) events.items) }

    // A fault of the script names its first bad line, or 0 where it is too long. Else the reader failed, or memory was
    // refused.
    ensures long { IfSome (R.remaining reader) (λ script. IsErrOf result (fault.Script (reading.Line 0)) → 16777216 < length script) }
    ensures bad { IfSome (R.remaining reader) (λ script. (n : ℕ) → IsErrOf result (fault.Script (reading.Line (n + 1))) → IsFirstBad script (n + 1)) }
    ensures faults { IfErr result (λ why. IsUnread why ⊎ IsOfScript why) }

    // The words are no matter of a script.
    ensures words { IfErr result (λ why. why ≢ fault.Usage) }
{
    let bytes = read_bytes(alloc, reader)?;
    let events = read_script(alloc, bytes.as_slice())?;
    Ok(events)
}
