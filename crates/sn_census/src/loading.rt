//! Filling the rows from the inodes of a root.
ghost use Rattle.std.specs.Prelude.{◌≡◌, ℕ, ◌/◌, min, IsTrue, IfErr, OnOk};
ghost use Rattle.sn_device.specs.Disk.{reads};
ghost use Rattle.sn_block.specs.Lending.{device_of};
ghost use Rattle.sn_ondisk.specs.Trees.{store_of};
ghost use Rattle.sn_image.specs.Inodes.{inode_at};
ghost use Rattle.sn_inode.specs.Reads.{CanReadRecord};
ghost use Rattle.sn_marks.specs.Fault.{CountsCheck, Tells};
ghost use Rattle.sn_census.specs.Rows.{AreLoaded, AreUnused, Sets, row_of};

use crate::readers::{inode_of, record_count};
use crate::table::{Census, Row};
use sn_block::Blocks;
use sn_device::Device;
use sn_layout::BlockTree;
use sn_limits::Limits;
use sn_marks::CheckFault;

// Fills the row of a number.
fn load_row<D: Device>(
    census: &mut Census,
    blocks: &mut Blocks<D>,
    limits: &Limits,
    file: &BlockTree,
    body: u32,
    number: u16,
) -> Result<(), CheckFault>
    requires read { IsTrue D.tells_bytes → CanReadRecord limits.now (D.status (device_of blocks.old)).sectors
        (store_of (reads (D.disk (device_of blocks.old)))) file.now number }
    ensures row { IsTrue D.tells_bytes → OnOk result (Sets number
        (row_of number (inode_at (store_of (reads (D.disk (device_of blocks.old)))) file.now number)) census.old census.new) }
    ensures fault { IsTrue D.tells_bytes → IfErr result (λ fault. Tells fault (λ damage block. ⊥)) }
    ensures same { IsTrue D.tells_bytes → D.disk (device_of blocks.new) ≡ D.disk (device_of blocks.old) }
    ensures counts { CountsCheck result (D.status (device_of blocks.old)) (D.status (device_of blocks.new)) }
{
    let inode = inode_of(blocks, limits, file, body, number)?;
    census.set_row(number, Row::new(number, &inode));
    Ok(())
}

/// Fills the row of each number, whatever was there. Past the inode file's records the numbers are unused.
/// No name is counted yet.
pub(crate) fn load_rows<D: Device>(
    census: &mut Census,
    blocks: &mut Blocks<D>,
    limits: &Limits,
    file: &BlockTree,
    body: u32,
) -> Result<(), CheckFault>
    requires read { IsTrue D.tells_bytes → (number : ℕ) → CanReadRecord limits.now (D.status (device_of blocks.old)).sectors
        (store_of (reads (D.disk (device_of blocks.old)))) file.now number }
    ensures rows { IsTrue D.tells_bytes → OnOk result (AreLoaded
        (store_of (reads (D.disk (device_of blocks.old)))) file.now (min (file.now.size / 128) 65536) census.new) }
    ensures rest { IsTrue D.tells_bytes → OnOk result (AreUnused (min (file.now.size / 128) 65536) census.new) }
    ensures fault { IsTrue D.tells_bytes → IfErr result (λ fault. Tells fault (λ damage block. ⊥)) }
    ensures same { IsTrue D.tells_bytes → D.disk (device_of blocks.new) ≡ D.disk (device_of blocks.old) }
    ensures counts { CountsCheck result (D.status (device_of blocks.old)) (D.status (device_of blocks.new)) }
{
    census.clear();
    for number in 0..record_count(file) {
        load_row(census, blocks, limits, file, body, number as u16)?;
    }
    Ok(())
}
