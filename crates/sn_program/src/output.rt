ghost use Rattle.std.specs.Prelude.{◌≡◌, OnOk, IfOk, IfErr};
ghost use Rattle.std.specs.List.{flat_map};
ghost use Rattle.std.specs.Io.KnownBytes.{Appends};
ghost use Rattle.sn_script.specs.Replies.{reply_line};
ghost use Rattle.sn_output.specs.Outputs.{AppendsFront};
ghost use Rattle.sn_program.specs.Fault.{IsOfFile};
ghost use Rattle.sn_program.specs.Tasks.{verdict_line};

use crate::fault::{ProgramFault, Which, on_file};
use sn_core::{Reply, Verdict};
use sn_output::write_front;
use sn_script::print_replies;
use std::alloc::{AllocError, Global};
use std::io::Write;

/// Writes the lines of replies. Where not all are written, the front of them is, or nothing.
pub(crate) fn write_replies<W: Write>(
    alloc: Global,
    replies: &[Reply],
    out: &mut W,
) -> Result<(), ProgramFault>
    ensures written { OnOk result (Appends (W.contents out.old) (W.contents out.new) (flat_map reply_line replies.now)) }
    ensures front { AppendsFront (W.contents out.old) (W.contents out.new) (flat_map reply_line replies.now) }
    ensures faults { IfErr result IsOfFile }
{
    let text = print_replies(alloc, replies)?;
    on_file(Which::Output, write_front(out, text.as_slice()))?;
    on_file(Which::Output, out.flush())
}

/// The line of a verdict.
fn print_verdict(alloc: Global, verdict: Verdict) -> Result<Vec<u8>, AllocError>
    ensures { IfOk result (λ text. text.items ≡ verdict_line verdict) }
{
    let mut text = Vec::new(alloc);
    // Nothing but memory can be wanting where text is appended to a list of bytes.
    if writeln!(text, "{verdict}").is_err() {
        return Err(AllocError);
    }
    Ok(text)
}

/// Writes the line of a verdict. Where not all is written, the front of it is, or nothing.
pub(crate) fn write_verdict<W: Write>(
    alloc: Global,
    verdict: Verdict,
    out: &mut W,
) -> Result<(), ProgramFault>
    ensures written { OnOk result (Appends (W.contents out.old) (W.contents out.new) (verdict_line verdict)) }
    ensures front { AppendsFront (W.contents out.old) (W.contents out.new) (verdict_line verdict) }
    ensures faults { IfErr result IsOfFile }
{
    let text = print_verdict(alloc, verdict)?;
    on_file(Which::Output, write_front(out, text.as_slice()))?;
    on_file(Which::Output, out.flush())
}
