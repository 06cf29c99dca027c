//! Trees as archives.
ghost use Rattle.std.specs.Prelude.{◌≡◌, ◌≢◌, IsErrOf, IsTrue, IfErr, OnOk};
ghost use Rattle.sn_check.specs.Verdicts.{IsCause};
ghost use Rattle.sn_device.specs.Disk.{reads};
ghost use Rattle.sn_export_walk.specs.Archives.{BeginsArchive, WritesArchive};
ghost use Rattle.sn_export_writing.specs.Streams.{BeginsStream, WritesStream};
ghost use Rattle.sn_held.specs.Images.{IsImage};
ghost use Rattle.sn_model.specs.World.{World, trees_of};
ghost use Rattle.sn_model.specs.declared.fault.MountFault.{MountFault as Why};
ghost use Rattle.sn_program.specs.declared.fault.ProgramFault.TheVariants as fault;

use crate::fault::ProgramFault;
use sn_core::Device;
use sn_export_image::{Exported, export_image};
use std::alloc::Global;
use std::io::Write;

/// Writes the tree at a path of what a device has as an archive.
///
/// Proved: Over each device that tells its bytes, what is written is the archive of what the path leads user 0 to, in the world that
/// the device's disk is an image of, or after a fault the front of it.
/// Proved: Over any device what is written is a stream of members and its end, or after a fault the front of one; nothing where there
/// was no mount, for which the cause is that of a check.
pub fn export_from<D: Device + Drop, W: Write>(
    alloc: Global,
    device: D,
    path: &str,
    out: &mut W,
) -> Result<(), ProgramFault>
    ensures written { OnOk result (WritesStream (W.contents out.old) (W.contents out.new)) }
    ensures front { BeginsStream (W.contents out.old) (W.contents out.new) }
    ensures archive { IsTrue D.tells_bytes → (world : World) → IsImage (reads (D.disk device)) world
        → OnOk result (WritesArchive (trees_of world) path.now (W.contents out.old) (W.contents out.new)) }
    ensures begun { IsTrue D.tells_bytes → (world : World) → IsImage (reads (D.disk device)) world
        → BeginsArchive (trees_of world) path.now (W.contents out.old) (W.contents out.new) }
    ensures unmounted { (why : Why) → IsErrOf result (fault.Mount why) → out.new ≡ out.old }
    ensures cause { IsTrue D.tells_bytes → (why : Why) → IsErrOf result (fault.Mount why)
        → IsCause (D.status device).sectors (reads (D.disk device)) why }
    ensures words { IfErr result (λ why. why ≢ fault.Usage) }
{
    let Exported { outcome, .. } = export_image(alloc, device, path.as_bytes(), out);
    match outcome {
        Ok(()) => Ok(()),
        Err(fault) => Err(ProgramFault::from(fault)),
    }
}
