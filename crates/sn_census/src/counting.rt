//! The census of a root.
ghost use Rattle.std.specs.Prelude.{◌≡◌, ◌/◌, ◌<◌, ℕ, IsTrue, IfErr, OnOk};
ghost use Rattle.sn_device.specs.Disk.{reads};
ghost use Rattle.sn_block.specs.Lending.{device_of};
ghost use Rattle.sn_ondisk.specs.Trees.{store_of};
ghost use Rattle.sn_image.specs.Sound.{IsLinked};
ghost use Rattle.sn_marks.specs.Fault.{CountsCheck, Tells};
ghost use Rattle.sn_census.specs.Counts.{AreCounted, HasFound};
ghost use Rattle.sn_census.specs.Faults.{StandsInLinks};
ghost use Rattle.sn_census.specs.Roots.{IsChecked, IsReadable};
ghost use Rattle.sn_census.specs.Rows.{row_at};

use crate::climbing::first_apart;
use crate::lacking::first_lacking;
use crate::loading::load_rows;
use crate::naming::count_names;
use crate::readers::record_fault;
use crate::table::Census;
use sn_block::Blocks;
use sn_device::Device;
use sn_dir::directory_laws;
use sn_inode::inode_laws;
use sn_layout::BlockTree;
use sn_limits::Limits;
use sn_marks::CheckFault;
use sn_tree_read::read_laws;

// What the type says of a number.
fn number_law(number: u16)
    ensures { number < 65536 }
{}

// Tests that a way leads up to the root from each directory. All names are counted, and no number has too
// many or too few.
fn test_reached<D: Device>(
    census: &mut Census,
    blocks: &mut Blocks<D>,
    limits: &Limits,
    file: &BlockTree,
    body: u32,
) -> Result<(), CheckFault>
    requires readable { IsTrue D.tells_bytes → IsReadable limits.now (D.status (device_of blocks.old)).sectors
        (store_of (reads (D.disk (device_of blocks.old)))) file.now }
    requires counted { IsTrue D.tells_bytes → AreCounted
        (store_of (reads (D.disk (device_of blocks.old)))) file.now (file.now.size / 128) census.old }
    requires full { (number : ℕ) → number < 65536 → (row_at census.old number).names ≡ (row_at census.old number).links }
    ensures linked { IsTrue D.tells_bytes → OnOk result (IsLinked (store_of (reads (D.disk (device_of blocks.old)))) file.now) }
    ensures found { IsTrue D.tells_bytes → OnOk result (HasFound (store_of (reads (D.disk (device_of blocks.old)))) file.now census.new) }
    ensures fault { IsTrue D.tells_bytes → IfErr result (λ fault. Tells fault
        (StandsInLinks (store_of (reads (D.disk (device_of blocks.old)))) file.now body)) }
    ensures same { IsTrue D.tells_bytes → D.disk (device_of blocks.new) ≡ D.disk (device_of blocks.old) }
    ensures counts { CountsCheck result (D.status (device_of blocks.old)) (D.status (device_of blocks.new)) }
{
    match first_apart(census) {
        Some(directory) => record_fault(blocks, file, body, directory),
        None => Ok(()),
    }
}

// Tests that no number has a name too few, and that each directory is reached. All names are counted, and
// no number has too many.
fn test_counted<D: Device>(
    census: &mut Census,
    blocks: &mut Blocks<D>,
    limits: &Limits,
    file: &BlockTree,
    body: u32,
) -> Result<(), CheckFault>
    requires readable { IsTrue D.tells_bytes → IsReadable limits.now (D.status (device_of blocks.old)).sectors
        (store_of (reads (D.disk (device_of blocks.old)))) file.now }
    requires counted { IsTrue D.tells_bytes → AreCounted
        (store_of (reads (D.disk (device_of blocks.old)))) file.now (file.now.size / 128) census.old }
    ensures linked { IsTrue D.tells_bytes → OnOk result (IsLinked (store_of (reads (D.disk (device_of blocks.old)))) file.now) }
    ensures found { IsTrue D.tells_bytes → OnOk result (HasFound (store_of (reads (D.disk (device_of blocks.old)))) file.now census.new) }
    ensures fault { IsTrue D.tells_bytes → IfErr result (λ fault. Tells fault
        (StandsInLinks (store_of (reads (D.disk (device_of blocks.old)))) file.now body)) }
    ensures same { IsTrue D.tells_bytes → D.disk (device_of blocks.new) ≡ D.disk (device_of blocks.old) }
    ensures counts { CountsCheck result (D.status (device_of blocks.old)) (D.status (device_of blocks.new)) }
{
    match first_lacking(census) {
        Some(number) => record_fault(blocks, file, body, number),
        None => test_reached(census, blocks, limits, file, body),
    }
}

/// Counts the names of a root, all else in which was checked, and compares them with the links that its
/// inodes say. `body` is the block of the root body. At `Ok` the root is linked, and so sound. What is reported
/// otherwise is so: a name of an unused number, at the block of its directory, or, at the block
/// of its record, a number with too many or too few names, or a directory that isn't reached from the root.
/// At `Ok` the census has the names of each number. Whatever the census counted before, it counts anew.
///
/// Proved: At `Ok` a root that is sound but for its links is linked, and so sound: each name leads to an inode, the root has
/// none, each other inode has as many as it says, which for a directory is one, and each directory is reached from the root.
/// Proved: A damage is at the block that is reported: a directory's block with a name that leads to no inode, or the block
/// of a record that has not as many names as it says, or is that of a directory that isn't reached.
/// Proved: The census counts anew whatever it counted before; over a device that tells its bytes nothing is written, and
/// only its own failures are counted; over another nothing is written unless the device is reported as failed.
pub fn count_links<D: Device>(
    census: &mut Census,
    blocks: &mut Blocks<D>,
    limits: &Limits,
    file: &BlockTree,
    body: u32,
) -> Result<(), CheckFault>
    requires checked { IsTrue D.tells_bytes → IsChecked limits.now (D.status (device_of blocks.old)).sectors
        (store_of (reads (D.disk (device_of blocks.old)))) file.now }
    ensures linked { IsTrue D.tells_bytes → OnOk result (IsLinked (store_of (reads (D.disk (device_of blocks.old)))) file.now) }
    ensures found { IsTrue D.tells_bytes → OnOk result (HasFound (store_of (reads (D.disk (device_of blocks.old)))) file.now census.new) }
    ensures fault { IsTrue D.tells_bytes → IfErr result (λ fault. Tells fault
        (StandsInLinks (store_of (reads (D.disk (device_of blocks.old)))) file.now body)) }
    ensures same { IsTrue D.tells_bytes → D.disk (device_of blocks.new) ≡ D.disk (device_of blocks.old) }
    ensures counts { CountsCheck result (D.status (device_of blocks.old)) (D.status (device_of blocks.new)) }
{
    // What was checked can be read, and there are no more records than numbers.
    read_laws();
    inode_laws();
    directory_laws();
    number_law(limits.largest_number);
    load_rows(census, blocks, limits, file, body)?;
    count_names(census, blocks, limits, file, body)?;
    test_counted(census, blocks, limits, file, body)
}
