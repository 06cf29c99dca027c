//! Checks of what a device has.
ghost use Rattle.std.specs.Prelude.{◌≢◌, IsTrue, IfErr, IfOk, IsErrOf, OnErr};
ghost use Rattle.std.specs.Io.KnownBytes.{Appends};
ghost use Rattle.sn_check.specs.Verdicts.{IsRight};
ghost use Rattle.sn_device.specs.Disk.{reads};
ghost use Rattle.sn_model.specs.declared.fault.MountFault.{MountFault as Why};
ghost use Rattle.sn_program.specs.Tasks.{BeginsToSayVerdict, verdict_line};
ghost use Rattle.sn_program.specs.declared.fault.ProgramFault.TheVariants as fault;
ghost use Rattle.sn_sound.specs.Verdicts.{HasNoVerdict};

use crate::fault::ProgramFault;
use crate::output::write_verdict;
use sn_block::Blocks;
use sn_core::{Device, MountFault, Verdict, check};
use std::alloc::Global;
use std::io::Write;

/// Checks what a device has, and writes the line of the verdict.
///
/// Proved: Over each device that tells its bytes, the verdict is that of `check` (sn_check), and its line alone is written,
/// or where writing fails the front of it; M1, M3 and M2 come only where they are right.
pub fn check_on<D: Device + Drop, W: Write>(
    alloc: Global,
    device: D,
    out: &mut W,
) -> Result<Verdict, ProgramFault>
    ensures verdict { IsTrue D.tells_bytes → IfOk result (IsRight (D.status device).sectors (reads (D.disk device))) }
    ensures none { IsTrue D.tells_bytes → (why : Why) → IsErrOf result (fault.Mount why) → HasNoVerdict (D.status device).sectors (reads (D.disk device)) why }

    // Nothing but its line is written, or where that fails, the front of it.
    ensures written { IfOk result (λ v. Appends (W.contents out.old) (W.contents out.new) (verdict_line v)) }
    ensures front { OnErr result (BeginsToSayVerdict (W.contents out.old) (W.contents out.new)) }
    ensures words { IfErr result (λ why. why ≢ fault.Usage) }
{
    let Ok(mut blocks) = Blocks::new(alloc, device) else {
        return Err(ProgramFault::Mount(MountFault::Memory));
    };
    let verdict = match check(alloc, &mut blocks) {
        Ok(verdict) => verdict,
        Err(fault) => return Err(ProgramFault::Mount(fault)),
    };
    match write_verdict(alloc, verdict, out) {
        Ok(()) => Ok(verdict),
        Err(fault) => Err(fault),
    }
}
