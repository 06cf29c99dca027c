//! A device in memory. It keeps a record of its writes and syncs, from which its past can be reconstructed.
ghost use Rattle.std.specs.Prelude.{◌≡◌, ◌⊎◌, ◌+◌, ◌-◌, ◌<◌, ◌^◌, true, length, replicate, slice_range, EachIndex, ◌*◌, ◌/◌, reverse, Contains, IfSome, IfOk, IsErr, IsTrue, IsFalse, ◌||◌, Some, OnOk, OnErr, ◌↔◌};
ghost use Rattle.sn_device.specs.Sectors.{AreSectors, IsSector, sector_at};
ghost use Rattle.sn_device.specs.Status.{has_ended, uncalled, restarted, one_write, one_sync, Counts, CountsOrEnds};
ghost use Rattle.sn_device.specs.Device.{Writes, Syncs};
ghost use Rattle.sn_device.specs.Disk.{CrashNow, next, written};
ghost use Rattle.sn_device.specs.Plan.{is_due, is_write_due, after_call, after_write};
ghost use Rattle.sn_device.specs.Fill.{fill_byte, last_synced, filling};
ghost use Rattle.sn_device.specs.Undo.{crashed_by};

use crate::fill::drawn;
use crate::{Device, Fault, Fill, Plan, SECTOR_SIZE, Sector, Status, Stop};
use std::alloc::{AllocError, Global};

// What a write found in its sector, or a sync.
#[derive(Drop)]
enum Entry {
    Write(u64, Sector),
    Sync,
    FailedSync,
}

/// A device in memory, which can be set to fail, and to crash. It takes 512 bytes a sector, and
/// as many and a few more for each write that its record keeps: where that can't grow the device
/// has ended for good. What a crash may leave of it is all that the model allows.
///
/// Proved: The device in memory keeps the contract of a device and faults exactly where it is asked to.
#[derive(Drop)]
pub struct MemDevice {
    sectors: Vec<Sector>,
    // The oldest entry comes first.
    calls: Vec<Entry>,
    status: Status,
    plan: Plan,
    ghost count: { length sectors.items ≡ status.sectors },
    ghost whole: { AreSectors sectors.items },
    ghost recorded: { length calls.items ≡ status.writes + status.syncs },
}

impl MemDevice {
    ghost use Rattle.sn_device.specs.Memory.{disk_of, contents_of, status_of, plan_of, first, no_fault};

    /// A device of so many sectors, all of them zeros.
    pub fn new(alloc: Global, sectors: u64) -> Result<Self, AllocError>
        ensures zeros { IfOk result (λ d. disk_of d ≡ first (replicate sectors (replicate 512 0))) }
        ensures status { IfOk result (λ d. status_of d ≡ uncalled sectors) }
        ensures plan { IfOk result (λ d. plan_of d ≡ no_fault) }
    {
        let mut zeros = Vec::with_capacity(alloc, sectors as usize)?;
        for _count in 0..sectors {
            zeros.push([0; 512])?;
        }
        Ok(MemDevice::with_sectors(zeros))
    }

    /// A device that holds these bytes. Bytes past the last whole sector are left out.
    pub fn from_bytes(alloc: Global, bytes: &[u8]) -> Result<Self, AllocError>
        ensures count { IfOk result (λ d. length (contents_of d) ≡ length bytes.now / 512) }
        ensures sectors { IfOk result (λ d. EachIndex (contents_of d)
            (λ i. sector_at (contents_of d) i ≡ slice_range bytes.now (512 * i) (512 * i + 512))) }
        ensures first { IfOk result (λ d. disk_of d ≡ first (contents_of d)) }
        ensures status { IfOk result (λ d. status_of d ≡ uncalled (length (contents_of d))) }
        ensures plan { IfOk result (λ d. plan_of d ≡ no_fault) }
    {
        let mut sectors = Vec::new(alloc);
        for i in 0..bytes.len() / SECTOR_SIZE {
            let mut sector = [0; 512];
            sector.copy_from_slice(&bytes[512 * i..512 * i + 512]);
            sectors.push(sector)?;
        }
        Ok(MemDevice::with_sectors(sectors))
    }

    // None of the sectors is unsynced.
    fn with_sectors(sectors: Vec<Sector>) -> Self
        requires { AreSectors sectors.items }
        ensures disk { disk_of result ≡ first sectors.items }
        ensures plan { plan_of result ≡ no_fault }
        ensures status { status_of result ≡ uncalled (length sectors.items) }
    {
        let status = Status::new(sectors.len() as u64);
        let calls = Vec::new(*sectors.allocator());
        MemDevice {
            sectors,
            calls,
            status,
            plan: Plan::NONE,
        }
    }

    /// The device after a crash that fills each sector written or tried since the last sync that
    /// succeeded. It is a new one: nothing is unsynced, no fault is due, and its counts are at 0. A
    /// device that is spent stays so.
    ///
    /// Proved: A crash makes one of the contents that the trait allows; it can fill each sector as a seed draws, and says
    /// exactly what it left.
    pub fn crash(self, fill: Fill) -> MemDevice
        ensures left { CrashNow (disk_of self) (contents_of result) }
        ensures first { disk_of result ≡ first (contents_of result) }
        ensures status { status_of result ≡ restarted (status_of self) }
        ensures plan { plan_of result ≡ no_fault }
        ensures old { fill ≡ Fill.Old → contents_of result ≡ last_synced (disk_of self) }
        ensures new { fill ≡ Fill.New → contents_of result ≡ contents_of self }
        ensures filled { IfSome (fill_byte fill) (λ byte. EachIndex (contents_of self)
            (λ i. Contains (disk_of self).present.unsynced i
            → sector_at (contents_of result) i ≡ replicate 512 byte)) }
        ensures each { EachIndex (contents_of self)
            (λ i. Contains (disk_of self).present.unsynced i → sector_at (contents_of result) i
            ≡ filling fill i (sector_at (last_synced (disk_of self)) i) (sector_at (contents_of self) i)) }
    {
        let MemDevice {
            mut sectors,
            mut calls,
            status,
            plan: _,
        } = self;
        fill_unsynced(&mut sectors, &mut calls, fill);
        let mut device = MemDevice::with_sectors(sectors);
        device.status.is_spent = status.is_spent;
        device
    }

    /// The k-th call from now on fails, once. The next one is the first.
    pub fn fail_at(&mut self, k: u64)
        requires { 0 < k }
        ensures plan { plan_of self.new ≡ record (plan_of self.old) { fails_in = Some k } }
        ensures disk { disk_of self.new ≡ disk_of self.old }
        ensures status { status_of self.new ≡ status_of self.old }
    {
        self.plan.fails_in = Some(k);
    }

    /// So many more writes succeed. The write after them and every later call fail.
    pub fn stop_at(&mut self, k: u64)
        ensures plan { plan_of self.new ≡ record (plan_of self.old) { stop = Stop.After k } }
        ensures disk { disk_of self.new ≡ disk_of self.old }
        ensures status { status_of self.new ≡ status_of self.old }
    {
        self.plan.stop = Stop::After(k);
    }

    /// What reads give.
    pub fn contents(&self) -> &[Sector]
        ensures { result.now ≡ contents_of self.now }
    {
        &self.sectors
    }
}

// Undoes the calls back to the last sync, or some of them.
fn fill_unsynced(sectors: &mut Vec<Sector>, calls: &mut Vec<Entry>, fill: Fill)
    requires { AreSectors sectors.old.items }
    ensures filled { sectors.new.items
        ≡ crashed_by fill (reverse calls.old.items) sectors.old.items }
    ensures whole { AreSectors sectors.new.items }
{
    while let Some(entry) = calls.pop() {
        match entry {
            Entry::Write(at, before) => {
                if let Some(sector) = sectors.get_mut(at as usize) {
                    *sector = filling(fill, at, before, *sector);
                }
            }
            Entry::Sync => break,
            Entry::FailedSync => {}
        }
    }
}

fn filling(fill: Fill, at: u64, before: Sector, after: Sector) -> Sector
    ensures filled { result ≡ filling fill at before after }
    ensures whole { IsSector result }
{
    match fill {
        Fill::Old => before,
        Fill::New => after,
        Fill::Zero => [0; 512],
        Fill::One => [1; 512],
        Fill::Junk => [0xa5; 512],
        Fill::Seeded(seed) => drawn(seed, at, before, after),
    }
}

impl Device for MemDevice {
    ghost use Rattle.sn_device.specs.Memory.{disk_of, status_of, plan_of};
    ghost use Rattle.sn_device.specs.MemoryLaws.{clock-disk_of};

    ghost tells_bytes = { true };

    ghost status = { status_of };

    ghost disk = { disk_of };

    ghost count = { λ d _. d.count };

    ghost whole = { λ d _. d.whole };

    ghost time = { λ d _. clock-disk_of d };

    fn status(&self) -> Status {
        self.status
    }

    fn read(&mut self, at: u64, sector: &mut [u8; 512]) -> Result<(), Fault>
        requires { at < (status_of self.old).sectors }
        ensures counts { Counts (λ s. s) result (status_of self.old) (status_of self.new) }
        ensures sectors { (status_of self.new).sectors ≡ (status_of self.old).sectors }
        ensures bytes { OnOk result (sector.new ≡ sector_at (disk_of self.old).present.sectors at) }
        ensures unread { OnErr result (sector.new ≡ sector.old) }
        ensures same { disk_of self.new ≡ disk_of self.old }

        // It fails exactly where its plan says so.
        ensures answer { IsErr result
            ↔ IsTrue (has_ended (status_of self.old) || is_due (plan_of self.old)) }
        ensures plan { IsFalse (has_ended (status_of self.old))
            → plan_of self.new ≡ after_call (plan_of self.old) }
    {
        if self.status.has_ended() {
            return Err(Fault);
        }
        if self.plan.take_call() {
            self.status.count_failure();
            return Err(Fault);
        }
        *sector = self.sectors[at as usize];
        Ok(())
    }

    fn write(&mut self, at: u64, sector: &[u8; 512]) -> Result<(), Fault>
        requires { at < (status_of self.old).sectors }
        ensures counts { CountsOrEnds one_write result (status_of self.old) (status_of self.new) }
        ensures sectors { (status_of self.new).sectors ≡ (status_of self.old).sectors }
        ensures disk { Writes at sector.now result
            (disk_of self.old) (disk_of self.new) (status_of self.new) }
        ensures idle { IsTrue (has_ended (status_of self.old))
            → disk_of self.new ≡ disk_of self.old }

        // It fails where its plan says so, and where the record can't grow. After a failure too, reads
        // give what was to be written.
        ensures due { IsTrue (is_write_due (plan_of self.old)) → IsErr result }
        ensures no_other { OnErr result (IsTrue (has_ended (status_of self.old)
            || is_write_due (plan_of self.old) || (status_of self.new).is_spent)) }
        ensures plan { IsFalse (has_ended (status_of self.old))
            → plan_of self.new ≡ after_write (plan_of self.old) }
        ensures tried { IsFalse (has_ended (status_of self.old) || (status_of self.new).is_spent)
            → disk_of self.new
            ≡ next (disk_of self.old) (written at sector.now (disk_of self.old).present) }
    {
        if self.status.has_ended() {
            return Err(Fault);
        }
        let fails = self.plan.take_write();
        let before = self.sectors[at as usize];
        if self.calls.push(Entry::Write(at, before)).is_err() {
            self.status.spend();
            return Err(Fault);
        }
        self.sectors[at as usize] = *sector;
        self.status.count_write();
        if fails {
            self.status.count_failure();
            return Err(Fault);
        }
        Ok(())
    }

    fn sync(&mut self) -> Result<(), Fault>
        ensures counts { CountsOrEnds one_sync result (status_of self.old) (status_of self.new) }
        ensures sectors { (status_of self.new).sectors ≡ (status_of self.old).sectors }
        ensures disk { Syncs result (disk_of self.old) (disk_of self.new) (status_of self.new) }
        ensures idle { IsTrue (has_ended (status_of self.old))
            → disk_of self.new ≡ disk_of self.old }

        // It fails where its plan says so, and where the record can't grow.
        ensures due { IsTrue (is_due (plan_of self.old)) → IsErr result }
        ensures no_other { OnErr result (IsTrue (has_ended (status_of self.old)
            || is_due (plan_of self.old) || (status_of self.new).is_spent)) }
        ensures plan { IsFalse (has_ended (status_of self.old))
            → plan_of self.new ≡ after_call (plan_of self.old) }
    {
        if self.status.has_ended() {
            return Err(Fault);
        }
        let fails = self.plan.take_call();
        let entry = if fails {
            Entry::FailedSync
        } else {
            Entry::Sync
        };
        if self.calls.push(entry).is_err() {
            self.status.spend();
            return Err(Fault);
        }
        self.status.count_sync();
        if fails {
            self.status.count_failure();
            return Err(Fault);
        }
        Ok(())
    }
}
