//! A device with the cache of its blocks.
ghost use Rattle.std.specs.Prelude.{◌≡◌, ◌+◌, ◌*◌, ◌/◌, ◌%◌, ◌<◌, ◌≤◌, length, replicate, Some, IsTrue, IsSome, IsOk, IfOk, IfErr, IfSome, OnOk, OnErr};
ghost use Rattle.std.specs.Borrow.{sem};
ghost use Rattle.sn_device.specs.Disk.{reads};
ghost use Rattle.sn_ondisk.specs.Blocks.{block_at};
ghost use Rattle.sn_ondisk.specs.Trees.{store_of};
ghost use Rattle.sn_names.specs.Indexes.{AllTell};
ghost use Rattle.sn_block.specs.Cache.{entries_of, Coheres};
ghost use Rattle.sn_block.specs.Counts.{CountsCalls, CountsRead, FailsRead};
ghost use Rattle.sn_names.specs.Props.{told-prop};
ghost use Rattle.sn_block.specs.Effects.{WritesSector, WritesStretch, WritesSynced, SyncsAll};

use crate::cache::Cache;
use crate::{Block, ReadFault};
use sn_device::{Device, Fault, SECTOR_SIZE, Sector, Status};
use sn_names::NameIndexes;
use std::alloc::{AllocFailed, Global};

/// A device with a cache of its blocks, and indexes of the names of directories. Block b is the sectors
/// from 8 b to 8 b + 7.
#[derive(Drop)]
pub struct Blocks<D: Device> {
    pub(crate) device: D,
    pub(crate) cache: Cache,
    pub(crate) names: NameIndexes,
    ghost coheres: { IsTrue D.Device.tells_bytes → Coheres (reads (D.Device.disk device)) (entries_of cache) },
    ghost told: { IsTrue D.Device.tells_bytes → AllTell (D.Device.status device).sectors
        (store_of (reads (D.Device.disk device))) names } by { told-prop _ _ names },
}

impl<D: Device> Blocks<D> {
    ghost use Rattle.sn_block.specs.Lending.{device_of, keeps, fetched_number, fetched_bytes, ends_as_read};

    /// Takes the memory for the cache, which keeps no block yet, and calls nothing of the device. No
    /// directory has an index. Where memory is refused, the device comes back as it was.
    pub fn new(alloc: Global, device: D) -> Result<Self, AllocFailed<D>>
        ensures device { IfOk result (λ blocks. device_of blocks ≡ device) }
        ensures value_returned { IfErr result (λ refused. refused.value ≡ device) }
    {
        match Cache::new(alloc) {
            Ok(cache) => Ok(Blocks {
                device,
                cache,
                names: NameIndexes::new(alloc),
            }),
            Err(_) => Err(AllocFailed { value: device }),
        }
    }

    /// The device, as the calls left it.
    pub fn into_device(self) -> D
        ensures { result ≡ device_of self }
    {
        let Blocks {
            device,
            cache,
            names,
        } = self;
        drop(cache);
        drop(names);
        device
    }

    /// What the device reports of itself.
    pub fn status(&self) -> Status
        ensures { result ≡ D.status (device_of self.now) }
    {
        self.device.status()
    }

    /// The number of sectors of the device.
    pub fn sectors(&self) -> u64
        ensures { result ≡ (D.status (device_of self.now)).sectors }
    {
        self.device.sectors()
    }

    /// Makes a block the one that `fetched` lends. It is read if it isn't kept. `Memory` comes only where
    /// memory is refused for one that isn't kept, and leaves the device as it was. `Device` comes only
    /// where the device failed, which is counted, or has ended.
    ///
    /// Proved, also of `fetched` and `read_block`: A block that is lent is the device's eight sectors, from a cache that
    /// agrees with what reads give, also after a write that failed, and lending changes nothing on the device.
    /// Proved, also of `read_block`: A fault says whether the device failed or memory was refused, and the counts show it.
    pub fn fetch(&mut self, number: u32) -> Result<(), ReadFault>
        requires room { 8 * number + 8 ≤ (D.status (device_of self.old)).sectors }
        ensures lent { OnOk result (fetched_number self.new ≡ Some number) }
        ensures same { IsTrue D.tells_bytes → D.disk (device_of self.new) ≡ D.disk (device_of self.old) }
        ensures counts { CountsRead result (D.status (device_of self.old)) (D.status (device_of self.new)) }
        ensures kept { IsTrue (keeps self.old number) → IsOk result }
    {
        if self.cache.find(u64::from(number)) {
            return Ok(());
        }
        let mut block = self.cache.take_room()?;
        read_sectors(&mut self.device, number, &mut block)?;
        self.cache.put(u64::from(number), block)?;
        Ok(())
    }

    /// Lends the block that was fetched last, unless it was written since. Two calls in a row lend the
    /// same bytes, over any device.
    pub fn fetched(&self) -> &Block
        requires { IsSome (fetched_number self.now) }
        ensures value { result.now ≡ fetched_bytes self.now }
        ensures bytes { IsTrue D.tells_bytes → IfSome (fetched_number self.now)
            (λ number. result.now ≡ block_at (reads (D.disk (device_of self.now))) number) }
    {
        self.cache.first()
    }

    /// Fetches a block and lends it, with the faults of `fetch`.
    pub fn read_block(&mut self, number: u32) -> Result<&Block, ReadFault>
        requires room { 8 * number + 8 ≤ (D.status (device_of self.old)).sectors }
        ensures* lends { sem 𝓛 (ends_as_read D.row D.Device result self.entry) }
        ensures bytes { IsTrue D.tells_bytes → IfOk result
            (λ block. block.now ≡ block_at (reads (D.disk (device_of self.old))) number) }
        ensures kept { IsTrue (keeps self.old number) → IsOk result }
    {
        self.fetch(number)?;
        Ok(self.fetched())
    }

    /// Writes a sector. Its block is kept no longer, also after a fault, and no index that rests on it.
    ///
    /// Proved, also of `write_stretch`, `write_block` and `zero_range`: A call that writes touches the sectors that it names
    /// and no others, whatever its answer, and at its success reads give what was written.
    pub fn write_sector(&mut self, at: u64, sector: &Sector) -> Result<(), Fault>
        requires room { at < (D.status (device_of self.old)).sectors }
        ensures disk { IsTrue D.tells_bytes → WritesSector at sector.now result
            (D.disk (device_of self.old)) (D.disk (device_of self.new)) }
        ensures counts { CountsCalls 1 0 result (D.status (device_of self.old)) (D.status (device_of self.new)) }
    {
        self.cache.forget(at / 8);
        self.names.forget(at / 8);
        self.device.write(at, sector)
    }

    /// Writes a stretch of whole sectors from `at` on, in their order. A fault of one ends it: those before
    /// it are written, and those after it aren't.
    pub fn write_stretch(&mut self, at: u64, bytes: &[u8]) -> Result<(), Fault>
        requires whole { length bytes.now % 512 ≡ 0 }
        requires room { at + length bytes.now / 512 ≤ (D.status (device_of self.old)).sectors }
        ensures disk { IsTrue D.tells_bytes → WritesStretch at (length bytes.now / 512) bytes.now result
            (D.disk (device_of self.old)) (D.disk (device_of self.new)) }
        ensures counts { CountsCalls (length bytes.now / 512) 0 result
            (D.status (device_of self.old)) (D.status (device_of self.new)) }
    {
        // It bounds the numbers of the sectors.
        let _sectors = self.sectors();
        for i in 0..bytes.len() / SECTOR_SIZE {
            let mut sector = [0; 512];
            sector.copy_from_slice(&bytes[SECTOR_SIZE * i..SECTOR_SIZE * i + SECTOR_SIZE]);
            self.write_sector(at + i as u64, &sector)?;
        }
        Ok(())
    }

    /// Writes the eight sectors of a block, as `write_stretch`.
    pub fn write_block(&mut self, number: u32, block: &Block) -> Result<(), Fault>
        requires room { 8 * number + 8 ≤ (D.status (device_of self.old)).sectors }
        ensures disk { IsTrue D.tells_bytes → WritesStretch (8 * number) 8 block.now result
            (D.disk (device_of self.old)) (D.disk (device_of self.new)) }
        ensures counts { CountsCalls 8 0 result (D.status (device_of self.old)) (D.status (device_of self.new)) }
    {
        self.write_stretch(8 * u64::from(number), block.as_slice())
    }

    /// Writes zeros over `count` sectors from `at` on, as `write_stretch`.
    pub fn zero_range(&mut self, at: u64, count: u64) -> Result<(), Fault>
        requires room { at + count ≤ (D.status (device_of self.old)).sectors }
        ensures disk { IsTrue D.tells_bytes → WritesStretch at count (replicate (512 * count) 0) result
            (D.disk (device_of self.old)) (D.disk (device_of self.new)) }
        ensures counts { CountsCalls count 0 result (D.status (device_of self.old)) (D.status (device_of self.new)) }
    {
        // It bounds the numbers of the sectors.
        let _sectors = self.sectors();
        for i in 0..count {
            self.write_sector(at + i, &[0; 512])?;
        }
        Ok(())
    }

    /// Writes a sector, and syncs. At `Ok` a crash leaves what reads give, here and in all that was
    /// written before.
    ///
    /// Proved, also of `sync`: After a sync a crash leaves what reads give.
    pub fn write_synced(&mut self, at: u64, sector: &Sector) -> Result<(), Fault>
        requires room { at < (D.status (device_of self.old)).sectors }
        ensures disk { IsTrue D.tells_bytes → WritesSynced at sector.now result
            (D.disk (device_of self.old)) (D.disk (device_of self.new)) }
        ensures counts { CountsCalls 1 1 result (D.status (device_of self.old)) (D.status (device_of self.new)) }
    {
        self.write_sector(at, sector)?;
        self.sync()
    }

    /// After a sync that succeeds, a crash leaves what reads give. One that fails syncs nothing.
    pub fn sync(&mut self) -> Result<(), Fault>
        ensures disk { IsTrue D.tells_bytes → SyncsAll result
            (D.disk (device_of self.old)) (D.disk (device_of self.new)) }
        ensures counts { CountsCalls 0 1 result (D.status (device_of self.old)) (D.status (device_of self.new)) }
    {
        self.device.sync()
    }
}

// Reads the eight sectors of a block, up to the first that fails.
fn read_sectors<D: Device>(device: &mut D, number: u32, block: &mut Block) -> Result<(), Fault>
    requires room { 8 * number + 8 ≤ (D.status device.old).sectors }
    ensures bytes { IsTrue D.tells_bytes
        → OnOk result (block.new ≡ block_at (reads (D.disk device.old)) number) }
    ensures same { IsTrue D.tells_bytes → D.disk device.new ≡ D.disk device.old }
    ensures done { OnOk result (D.status device.new ≡ D.status device.old) }
    ensures sectors { (D.status device.new).sectors ≡ (D.status device.old).sectors }
    ensures failed { OnErr result (FailsRead (D.status device.old) (D.status device.new)) }
{
    for i in 0..8 {
        let mut sector = [0; 512];
        device.read(8 * u64::from(number) + i as u64, &mut sector)?;
        block[SECTOR_SIZE * i..SECTOR_SIZE * i + SECTOR_SIZE].copy_from_slice(&sector);
    }
    Ok(())
}
