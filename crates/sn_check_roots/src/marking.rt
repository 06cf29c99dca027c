//! All roots but for their links.
ghost use Rattle.std.specs.Prelude.{◌≡◌, ◌+◌, ◌*◌, ◌<◌, ◌≤◌, length, replicate, IsTrue, IfErr, OnOk};
ghost use Rattle.sn_device.specs.Disk.{reads};
ghost use Rattle.sn_block.specs.Lending.{device_of};
ghost use Rattle.sn_layout.specs.RootBody.{IsRootBody};
ghost use Rattle.sn_ondisk.specs.Trees.{store_of};
ghost use Rattle.sn_sound.specs.Maps.{rooted_in};
ghost use Rattle.sn_sound.specs.Verdicts.{OfSome};
ghost use Rattle.sn_marks.specs.Fault.{CountsCheck, Tells};
ghost use Rattle.sn_check_root.specs.Rules.{StandsInRoot};
ghost use Rattle.sn_check_roots.specs.Sets.{AreSets};
ghost use Rattle.sn_check_roots.specs.First.{AreChecked, AreDone};

use crate::laws::set_laws;
use crate::rooted::{root_at, root_count, seen_before};
use sn_block::Blocks;
use sn_check_root::check_root;
use sn_device::Device;
use sn_layout::{Geometry, RootBody};
use sn_map::Map;
use sn_marks::{CheckFault, RootBit};
use std::alloc::Global;

// Checks one root but for its links, and marks what it reaches, where all roots before it are done. One with
// the inode file of an earlier root is as sound and reaches the same, so it gets that one's marks unread.
fn mark_one<D: Device>(
    alloc: Global,
    blocks: &mut Blocks<D>,
    map: &mut Map,
    geometry: Geometry,
    root: &RootBody,
    i: usize,
    body: u32,
) -> Result<(), CheckFault>
    requires fits { IsRootBody root.now }
    requires within { i < length (rooted_in root.now) }
    requires words { length map.old ≡ geometry }
    requires room { 8 * geometry ≤ (D.status (device_of blocks.old)).sectors }
    requires done { IsTrue D.tells_bytes → AreDone geometry (store_of (reads (D.disk (device_of blocks.old)))) root.now i map.old }
    ensures done { IsTrue D.tells_bytes → OnOk result (AreDone geometry (store_of (reads (D.disk (device_of blocks.old)))) root.now (i + 1) map.new) }
    ensures fault { IsTrue D.tells_bytes → IfErr result (λ fault. Tells fault (λ damage block. OfSome root.now (λ r. StandsInRoot root.now.limits geometry
        (store_of (reads (D.disk (device_of blocks.old)))) r.inodes body damage block))) }
    ensures words { length map.new ≡ geometry }
    ensures same { IsTrue D.tells_bytes → D.disk (device_of blocks.new) ≡ D.disk (device_of blocks.old) }
    ensures counts { CountsCheck result (D.status (device_of blocks.old)) (D.status (device_of blocks.new)) }
{
    // The marks of a root are its part of the sets.
    set_laws();
    let it = root_at(root, i);
    if let Some(j) = seen_before(root, i) {
        map.copy_bit(root_at(root, j).bit, it.bit);
        return Ok(());
    }
    let bit = RootBit {
        geometry,
        bit: it.bit,
    };
    check_root(alloc, blocks, map, &bit, &root.limits, &it.file, body)
}

/// Checks all roots but for their links, and marks in a map of zeros what each reaches. `body` is the block of
/// the root body. The first fault found so is reported.
pub(crate) fn mark_roots<D: Device>(
    alloc: Global,
    blocks: &mut Blocks<D>,
    map: &mut Map,
    geometry: Geometry,
    root: &RootBody,
    body: u32,
) -> Result<(), CheckFault>
    requires fits { IsRootBody root.now }
    requires blank { map.old ≡ replicate geometry 0 }
    requires room { 8 * geometry ≤ (D.status (device_of blocks.old)).sectors }
    ensures sets { IsTrue D.tells_bytes → OnOk result (AreSets (store_of (reads (D.disk (device_of blocks.old)))) (rooted_in root.now) map.new) }
    ensures checked { IsTrue D.tells_bytes → OnOk result (AreChecked geometry (store_of (reads (D.disk (device_of blocks.old)))) root.now (rooted_in root.now)) }
    ensures fault { IsTrue D.tells_bytes → IfErr result (λ fault. Tells fault (λ damage block. OfSome root.now (λ r. StandsInRoot root.now.limits geometry
        (store_of (reads (D.disk (device_of blocks.old)))) r.inodes body damage block))) }
    ensures words { length map.new ≡ geometry }
    ensures same { IsTrue D.tells_bytes → D.disk (device_of blocks.new) ≡ D.disk (device_of blocks.old) }
    ensures counts { CountsCheck result (D.status (device_of blocks.old)) (D.status (device_of blocks.new)) }
{
    // Before the first root all words are 0.
    set_laws();
    for i in 0..root_count(root) {
        mark_one(alloc, blocks, map, geometry, root, i, body)?;
    }
    Ok(())
}
