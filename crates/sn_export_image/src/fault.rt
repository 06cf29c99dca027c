ghost use Rattle.std.specs.Prelude.{◌≡◌};
ghost use Rattle.sn_export_image.specs.Faults as faults;

use sn_core::{End, MountFault};
use sn_export_walk::ExportFault;

/// Why the tree of an image isn't written, or not all of it.
#[derive(Clone, Copy, Debug)]
pub enum ImageFault {
    /// There was no mount, and nothing was written.
    Mount(MountFault),
    /// The export failed, or the unmount after it: that with `Memory` or `Stopped`.
    Export(ExportFault),
}

impl ImageFault {
    /// The fault of an unmount, which replaces one of the export.
    pub(crate) fn of_end(end: End, written: Result<(), ExportFault>) -> Result<(), ImageFault>
        ensures { result ≡ faults.outcome_of end written }
    {
        match end {
            End::Clean => {}
            End::Memory => return Err(ImageFault::Export(ExportFault::Memory)),
            End::Stopped => return Err(ImageFault::Export(ExportFault::Stopped)),
            End::Mount(fault) => return Err(ImageFault::Mount(fault)),
        }
        match written {
            Ok(()) => Ok(()),
            Err(fault) => Err(ImageFault::Export(fault)),
        }
    }
}
