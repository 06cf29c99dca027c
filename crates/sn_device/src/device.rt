//! The trait of devices.
ghost use Rattle.std.specs.Prelude.{◌≡◌, ◌+◌, ◌<◌, Bool, length, IsTrue, OnOk, OnErr};
ghost use Rattle.sn_device.specs.declared.status.Status.{Status as StatusOf};
ghost use Rattle.sn_device.specs.Sectors.{AreSectors, sector_at};
ghost use Rattle.sn_device.specs.Disk.{Disk, clock};
ghost use Rattle.sn_device.specs.Status.{has_ended, one_write, one_sync, Counts, CountsOrEnds};
ghost use Rattle.sn_device.specs.Device.{Writes, Syncs};

use crate::{Fault, Status};
use sn_limits::Sector;

/// Sectors numbered from 0. A fault comes only with one more failure, or at the device's end, where
/// every call is a fault that does nothing and isn't counted.
///
/// Proved: After a crash each sector written since the last successful sync may have any bytes, and the others have what
/// reads give: that is what a crash means in all crates above.
pub trait Device {
    /// Whether the device tells its bytes. Of one that doesn't, no clause speaks of bytes and
    /// crashes.
    ghost tells_bytes: { Bool };

    /// The number of sectors, and the counts.
    ghost status: { Self → StatusOf };

    /// What is on the device, now and at each earlier moment.
    ghost disk: { Self → Disk };

    /// The number of sectors, the counts, and whether the device has ended.
    fn status(&self) -> Status
        ensures { result ≡ status self.now };

    /// The number of sectors.
    final fn sectors(&self) -> u64
        ensures { result ≡ (status self.now).sectors }
    {
        self.status().sectors
    }

    /// How many calls were answered with a fault.
    final fn failures(&self) -> u64
        ensures { result ≡ (status self.now).failures }
    {
        self.status().failures
    }

    /// Reads the sector `at`. At a fault the buffer is as it was.
    fn read(&mut self, at: u64, sector: &mut [u8; 512]) -> Result<(), Fault>
        requires { at < (status self.old).sectors }
        ensures counts { Counts (λ s. s) result (status self.old) (status self.new) }
        ensures sectors { (status self.new).sectors ≡ (status self.old).sectors }
        ensures bytes { IsTrue tells_bytes
            → OnOk result (sector.new ≡ sector_at (disk self.old).present.sectors at) }
        ensures unread { OnErr result (sector.new ≡ sector.old) }
        ensures same { IsTrue tells_bytes → disk self.new ≡ disk self.old };

    /// Writes the sector `at`. Until a sync succeeds, a crash may leave any bytes in it. After a
    /// fault reads give some bytes there, the same until the next write of it.
    fn write(&mut self, at: u64, sector: &[u8; 512]) -> Result<(), Fault>
        requires { at < (status self.old).sectors }
        ensures counts { CountsOrEnds one_write result (status self.old) (status self.new) }
        ensures sectors { (status self.new).sectors ≡ (status self.old).sectors }
        ensures disk { IsTrue tells_bytes
            → Writes at sector.now result (disk self.old) (disk self.new) (status self.new) }
        ensures idle { IsTrue tells_bytes
            → IsTrue (has_ended (status self.old)) → disk self.new ≡ disk self.old };

    /// After a sync that succeeds, a crash leaves what reads give. One that fails syncs nothing.
    fn sync(&mut self) -> Result<(), Fault>
        ensures counts { CountsOrEnds one_sync result (status self.old) (status self.new) }
        ensures sectors { (status self.new).sectors ≡ (status self.old).sectors }
        ensures disk { IsTrue tells_bytes
            → Syncs result (disk self.old) (disk self.new) (status self.new) }
        ensures idle { IsTrue tells_bytes
            → IsTrue (has_ended (status self.old)) → disk self.new ≡ disk self.old };

    /// Reads give as many sectors as the device has.
    ghost count: { (d : Self) → IsTrue tells_bytes
        → length (disk d).present.sectors ≡ (status d).sectors };

    /// Each of them is 512 bytes.
    ghost whole: { (d : Self) → IsTrue tells_bytes → AreSectors (disk d).present.sectors };

    /// The clock is the number of writes and syncs.
    ghost time: { (d : Self) → IsTrue tells_bytes
        → clock (disk d) ≡ (status d).writes + (status d).syncs };
}
