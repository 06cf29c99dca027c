//! Runs that are cut short, on a copy of an image.
ghost use Rattle.std.specs.Prelude.{IfErr, OnOk};
ghost use Rattle.std.specs.Io.KnownBytes.{Appends};
ghost use Rattle.sn_device.specs.Memory.{contents_of, disk_of, status_of};
ghost use Rattle.sn_output.specs.Outputs.{AppendsFront};
ghost use Rattle.sn_program.specs.Copies.{IsCutShort};
ghost use Rattle.sn_program.specs.Fault.{IsOfFile};
ghost use Rattle.sn_program.specs.Tasks.{lines_of};

use crate::fault::ProgramFault;
use crate::run::{Answered, answer};
use sn_core::{End, Event, Fill, MemDevice, Ran, Reply, Watch};
use std::alloc::Global;
use std::io::Write;

/// What came of a run that was cut short, and what a crash then left.
#[derive(Drop)]
pub struct CutShort {
    pub replies: Vec<Reply>,
    pub end: End,
    pub written: Result<(), ProgramFault>,
    pub left: MemDevice,
}

/// Runs events on a copy that takes so many more writes, writes the replies, and crashes: each sector that was written
/// since the last sync that succeeded is filled.
///
/// Proved: A run that is cut short is a run on the copy that it was given, and leaves what a crash leaves of that, each
/// unsynced sector filled as was asked.
/// Proved: Where that copy was an image of a world, so is what is left: of the machine's run, cut short after the replies
/// that were given.
pub fn answer_cut<W: Write, L: Watch>(
    alloc: Global,
    copy: MemDevice,
    cut: u32,
    fill: Fill,
    events: &[Event],
    out: &mut W,
    watch: &mut L,
) -> CutShort
    // The run is one on this copy, and what is left is what the crash leaves of it. That it is cut after so many writes
    // no clause says: a run says of its device only what is said of every device.
    ensures run { IsCutShort (disk_of copy) (status_of copy) fill result.end events.now result.replies.items (contents_of result.left) }

    // Nothing but the lines of its replies is written: all of them, or where that fails, the front.
    ensures written { OnOk result.written (Appends (W.contents out.old) (W.contents out.new) (lines_of result.replies.items)) }
    ensures front { AppendsFront (W.contents out.old) (W.contents out.new) (lines_of result.replies.items) }
    ensures faults { IfErr result.written IsOfFile }
{
    let mut copy = copy;
    copy.stop_at(u64::from(cut));
    let Answered { ran, written } = answer(alloc, copy, events, out, watch);
    let Ran {
        replies,
        end,
        device,
    } = ran;
    CutShort {
        replies,
        end,
        written,
        left: device.crash(fill),
    }
}
