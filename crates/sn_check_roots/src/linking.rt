//! The names and links of all roots.
ghost use Rattle.std.specs.Prelude.{◌≡◌, ◌+◌, ◌*◌, ◌<◌, ◌≤◌, length, take, IsTrue, IfErr, OnOk};
ghost use Rattle.sn_device.specs.Disk.{reads};
ghost use Rattle.sn_block.specs.Lending.{device_of};
ghost use Rattle.sn_layout.specs.RootBody.{IsRootBody};
ghost use Rattle.sn_ondisk.specs.Trees.{store_of};
ghost use Rattle.sn_sound.specs.Maps.{rooted_in};
ghost use Rattle.sn_sound.specs.Verdicts.{OfSome};
ghost use Rattle.sn_marks.specs.Fault.{CountsCheck, Tells};
ghost use Rattle.sn_census.specs.Faults.{StandsInLinks};
ghost use Rattle.sn_check_roots.specs.First.{AreChecked, AreLinked};

use crate::rooted::{root_at, root_count, seen_before};
use sn_block::Blocks;
use sn_census::{Census, count_links};
use sn_device::Device;
use sn_layout::{Geometry, RootBody};
use sn_marks::CheckFault;

// Counts the names of one root, where all roots before it are linked. One with the inode file of an earlier
// root is linked as that one is, and nothing of it is read.
fn link_one<D: Device>(
    census: &mut Census,
    blocks: &mut Blocks<D>,
    geometry: Geometry,
    root: &RootBody,
    i: usize,
    body: u32,
) -> Result<(), CheckFault>
    requires fits { IsRootBody root.now }
    requires within { i < length (rooted_in root.now) }
    requires room { 8 * geometry ≤ (D.status (device_of blocks.old)).sectors }
    requires checked { IsTrue D.tells_bytes → AreChecked geometry (store_of (reads (D.disk (device_of blocks.old)))) root.now (rooted_in root.now) }
    requires linked { IsTrue D.tells_bytes → AreLinked (store_of (reads (D.disk (device_of blocks.old)))) (take i (rooted_in root.now)) }
    ensures linked { IsTrue D.tells_bytes → OnOk result (AreLinked (store_of (reads (D.disk (device_of blocks.old)))) (take (i + 1) (rooted_in root.now))) }
    ensures fault { IsTrue D.tells_bytes → IfErr result (λ fault. Tells fault (λ damage block. OfSome root.now (λ r. StandsInLinks
        (store_of (reads (D.disk (device_of blocks.old)))) r.inodes body damage block))) }
    ensures same { IsTrue D.tells_bytes → D.disk (device_of blocks.new) ≡ D.disk (device_of blocks.old) }
    ensures counts { CountsCheck result (D.status (device_of blocks.old)) (D.status (device_of blocks.new)) }
{
    if seen_before(root, i).is_some() {
        return Ok(());
    }
    count_links(census, blocks, &root.limits, &root_at(root, i).file, body)
}

/// Counts the names of all roots, which were checked but for their links. The first fault found so is reported.
pub(crate) fn link_roots<D: Device>(
    census: &mut Census,
    blocks: &mut Blocks<D>,
    geometry: Geometry,
    root: &RootBody,
    body: u32,
) -> Result<(), CheckFault>
    requires fits { IsRootBody root.now }
    requires room { 8 * geometry ≤ (D.status (device_of blocks.old)).sectors }
    requires checked { IsTrue D.tells_bytes → AreChecked geometry (store_of (reads (D.disk (device_of blocks.old)))) root.now (rooted_in root.now) }
    ensures linked { IsTrue D.tells_bytes → OnOk result (AreLinked (store_of (reads (D.disk (device_of blocks.old)))) (rooted_in root.now)) }
    ensures fault { IsTrue D.tells_bytes → IfErr result (λ fault. Tells fault (λ damage block. OfSome root.now (λ r. StandsInLinks
        (store_of (reads (D.disk (device_of blocks.old)))) r.inodes body damage block))) }
    ensures same { IsTrue D.tells_bytes → D.disk (device_of blocks.new) ≡ D.disk (device_of blocks.old) }
    ensures counts { CountsCheck result (D.status (device_of blocks.old)) (D.status (device_of blocks.new)) }
{
    for i in 0..root_count(root) {
        link_one(census, blocks, geometry, root, i, body)?;
    }
    Ok(())
}
