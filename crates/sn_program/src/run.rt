//! Runs over a device.
ghost use Rattle.std.specs.Prelude.{◌≡◌, IsTrue, OnOk, IfErr, length};
ghost use Rattle.std.specs.Io.KnownBytes.{Appends};
ghost use Rattle.sn_model.specs.declared.end.End.TheVariants as ending;
ghost use Rattle.sn_output.specs.Outputs.{AppendsFront};
ghost use Rattle.sn_program.specs.Answers.{IsRun};
ghost use Rattle.sn_program.specs.Fault.{IsOfFile, outcome_of};
ghost use Rattle.sn_program.specs.Tasks.{lines_of};

use crate::fault::ProgramFault;
use crate::output::write_replies;
use sn_core::{Device, End, Event, Ran, Watch, run};
use std::alloc::Global;
use std::io::Write;

/// What came of events: the replies, how the run ended, and the device; and whether the replies were written.
#[derive(Drop)]
pub struct Answered<D: Device> {
    pub ran: Ran<D>,
    pub written: Result<(), ProgramFault>,
}

/// Runs events on a device, and writes the replies, also where the run doesn't end well.
///
/// Proved: Over each device that tells its bytes, the lines of the replies of a run, as `run` has it, are written, from the
/// world that the device's disk is an image of; a disk without a root is refused for that, and where the device counted no
/// failure, only its end failed.
/// Proved: All of the lines of the replies are written, or, where writing fails, the front of them, and nothing else.
pub fn answer<D: Device, W: Write, L: Watch>(
    alloc: Global,
    device: D,
    events: &[Event],
    out: &mut W,
    watch: &mut L,
) -> Answered<D>
    ensures run { IsTrue D.tells_bytes → IsRun result.ran.end events.now result.ran.replies.items
        (D.disk device) (D.status device) (D.disk result.ran.device) (D.status result.ran.device) }

    // Over any device: each event has its reply where the run ended well.
    ensures counted { result.ran.end ≡ ending.Clean → length result.ran.replies.items ≡ length events.now }

    // Nothing but the lines of its replies is written: all of them, or where that fails, the front.
    ensures written { OnOk result.written (Appends (W.contents out.old) (W.contents out.new) (lines_of result.ran.replies.items)) }
    ensures front { AppendsFront (W.contents out.old) (W.contents out.new) (lines_of result.ran.replies.items) }
    ensures faults { IfErr result.written IsOfFile }
{
    let ran = run(alloc, device, events, watch);
    let written = write_replies(alloc, ran.replies.as_slice(), out);
    Answered { ran, written }
}

/// The result of a run: its own fault goes before one of writing.
///
/// Proved: A run's own fault goes before one of writing.
pub fn outcome(end: End, written: Result<(), ProgramFault>) -> Result<(), ProgramFault>
    ensures { result ≡ outcome_of end written }
{
    ProgramFault::of_end(end)?;
    written
}
