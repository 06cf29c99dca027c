//! A device over a file.
ghost use Rattle.std.specs.Prelude.{◌≡◌, ◌≢◌, ◌⊎◌, ◌*◌, ◌+◌, ◌/◌, ◌<◌, ◌≤◌, ◌^◌, [], true, false, Some, length, IsTrue, IsErr, IfOk, OnOk, OnErr};
ghost use Rattle.std.specs.Option.{ForSome};
ghost use Rattle.sn_device.specs.Status.{uncalled, one_write, one_sync, Counts, CountsOrEnds};
ghost use Rattle.sn_filedev.specs.Runs.{IsApart};
ghost use Rattle.sn_filedev.specs.Gathered.{Gathers};
ghost use Rattle.sn_filedev.specs.LastBlock.{Shows};
ghost use Rattle.std.proofs.lemmas.Bool.{false≢true};

use crate::block::LastBlock;
use crate::gathered::Gathered;
use sn_device::{Device, Fault, SECTOR_SIZE, Sector, Status};
use sn_limits::SECTORS_PER_BLOCK;
use std::alloc::Global;
use std::fs::OpenFile;
use std::io;
use std::os::unix::fs::FileExt;

/// A device over a file. What is written may wait in memory until a sync, so what wasn't synced
/// when the device is dropped may be lost.
///
/// Proved: A device over a file is safe on any file, and its faults and counts are those of the trait.
/// Proved: A write that succeeds is gathered, and after a sync that succeeds none waits; after a sync that the file failed
/// none succeeds.
/// Proved: A read gives its sector as the block around it had it when it was fetched.
#[derive(Drop)]
pub struct FileDevice<F: FileExt + OpenFile> {
    file: F,
    status: Status,
    gathered: Gathered,
    block: LastBlock,
    // The file's own sync failed. The system may have dropped what it couldn't write, and a later
    // sync of the file wouldn't report that.
    is_lost: bool,
    // It is there to be read alone, and each write faults.
    is_read_only: bool,
    ghost within: { status.sectors * 512 < 2 ^ 64 },
    // No sector of the block is gathered, so what is read of it was written last.
    ghost apart: { ForSome block.number (IsApart gathered.first (length gathered.bytes.items / 512)) },
    // Nothing is written to a file that is there to be read alone.
    ghost unwritten: { IsTrue is_read_only → gathered.bytes.items ≡ [] },
}

// How many whole sectors a file has.
fn whole_sectors<F: OpenFile>(file: &F) -> io::Result<u64>
    ensures { IfOk result (λ n. n * 512 < 2 ^ 64) }
{
    Ok(file.metadata()?.len() / SECTOR_SIZE as u64)
}

impl<F: FileExt + OpenFile + Drop> FileDevice<F> {
    ghost use Rattle.sn_filedev.specs.FileDevice.{status_of, is_lost, is_read_only};

    /// A device over a file that is open for reading and writing, of its whole sectors. An error is
    /// want of memory or the file's, and changes nothing in the file. It takes no lock on the file.
    pub fn new(alloc: Global, file: F) -> io::Result<Self>
        ensures uncalled { IfOk result (λ d. status_of d ≡ uncalled (status_of d).sectors) }
        ensures writing { IfOk result (λ d. is_read_only d ≡ false) }
    {
        let gathered = Gathered::new(alloc)?;
        let sectors = whole_sectors(&file)?;
        Ok(FileDevice::over(file, gathered, sectors, false))
    }

    /// The same over a file that is open for reading, whose writes fault.
    pub(crate) fn for_reading(alloc: Global, file: F) -> io::Result<Self>
        ensures uncalled { IfOk result (λ d. status_of d ≡ uncalled (status_of d).sectors) }
        ensures reading { IfOk result (λ d. is_read_only d ≡ true) }
    {
        let gathered = Gathered::new(alloc)?;
        let sectors = whole_sectors(&file)?;
        Ok(FileDevice::over(file, gathered, sectors, true))
    }

    pub(crate) fn over(file: F, gathered: Gathered, sectors: u64, reads_alone: bool) -> Self
        requires within { sectors * 512 < 2 ^ 64 }
        requires empty { gathered.bytes.items ≡ [] }
        ensures uncalled { status_of result ≡ uncalled sectors }
        ensures access { is_read_only result ≡ reads_alone }
    {
        FileDevice {
            file,
            status: Status::new(sectors),
            gathered,
            block: LastBlock::new(),
            is_lost: false,
            is_read_only: reads_alone,
        }
    }

    pub(crate) fn file(&self) -> &F {
        &self.file
    }

    /// The bytes of all its sectors, which no count includes. An error is want of memory or the file's.
    pub fn read_all(&mut self, alloc: Global) -> io::Result<Vec<u8>>
        ensures length { IfOk result (λ bytes. length bytes.items ≡ 512 * (status_of self.old).sectors) }
        ensures status { status_of self.new ≡ status_of self.old }
        ensures lost { is_lost self.new ≡ is_lost self.old }
        ensures access { is_read_only self.new ≡ is_read_only self.old }
    {
        self.flush()?;
        let mut bytes = vec![in alloc; 0; self.status.sectors as usize * SECTOR_SIZE]?;
        self.file.read_exact_at(&mut bytes, 0)?;
        Ok(bytes)
    }

    /// Stores these as its first sectors.
    pub(crate) fn store(&mut self, sectors: &[Sector]) -> io::Result<()>
        requires { length sectors.now ≤ (status_of self.old).sectors }
    {
        for (at, sector) in sectors.iter().enumerate() {
            self.gather(at as u64, sector)?;
        }
        self.settle()
    }

    // Writes what was gathered to the file. Where that fails it stays gathered.
    fn flush(&mut self) -> io::Result<()>
        ensures status { self.new.status ≡ self.old.status }
        ensures block { self.new.block ≡ self.old.block }
        ensures lost { self.new.is_lost ≡ self.old.is_lost }
        ensures access { self.new.is_read_only ≡ self.old.is_read_only }
        ensures empty { OnOk result (self.new.gathered.bytes.items ≡ []) }
        ensures failed { OnErr result (self.new.gathered.bytes.items ≢ []) }
        ensures first { OnErr result (self.new.gathered.first ≡ self.old.gathered.first) }
        ensures bytes { OnErr result
            (self.new.gathered.bytes.items ≡ self.old.gathered.bytes.items) }
    {
        if !self.gathered.is_empty() {
            let offset = self.gathered.offset();
            self.file.write_all_at(&self.gathered.bytes, offset)?;
            self.gathered.clear();
        }
        Ok(())
    }

    // Reads the block of a sector, unless it is the one that was read last.
    fn fetch(&mut self, at: u64) -> io::Result<()>
        requires { at < self.old.status.sectors }
        ensures status { self.new.status ≡ self.old.status }
        ensures lost { self.new.is_lost ≡ self.old.is_lost }
        ensures access { self.new.is_read_only ≡ self.old.is_read_only }
        ensures here { OnOk result (self.new.block.number ≡ Some (at / 8)) }
    {
        let number = at / SECTORS_PER_BLOCK;
        if !self.block.is(number) {
            let first = number * SECTORS_PER_BLOCK;
            let count = SECTORS_PER_BLOCK.min(self.status.sectors - first);
            if self.gathered.overlaps(first, first + SECTORS_PER_BLOCK) {
                self.flush()?;
            }
            self.block.read(&self.file, number, count)?;
        }
        Ok(())
    }

    fn gather(&mut self, at: u64, sector: &Sector) -> io::Result<()>
        requires { at < self.old.status.sectors }
        ensures status { self.new.status ≡ self.old.status }
        ensures lost { self.new.is_lost ≡ self.old.is_lost }
        ensures access { self.new.is_read_only ≡ self.old.is_read_only }
        ensures gathered { OnOk result (Gathers at sector.now self.old.gathered self.new.gathered) }
        ensures reading { IsTrue self.old.is_read_only → IsErr result }
    {
        if self.is_read_only {
            return Err(io::ErrorKind::PermissionDenied.into());
        }
        if self.block.is(at / SECTORS_PER_BLOCK) {
            self.block.forget();
        }
        if self.gathered.is_followed_by(at) {
            self.gathered.push(sector)?;
        } else {
            self.flush()?;
            self.gathered.begin(at, sector)?;
        }
        Ok(())
    }

    // Writes what was gathered to the file, and has it stored.
    fn settle(&mut self) -> io::Result<()>
        ensures status { self.new.status ≡ self.old.status }
        ensures empty { OnOk result (self.new.gathered.bytes.items ≡ []) }
        ensures failed { OnErr result
            ((self.new.gathered.bytes.items ≢ []) ⊎ IsTrue self.new.is_lost) }
        ensures lost { IsTrue self.old.is_lost → IsErr result × IsTrue self.new.is_lost }
        ensures access { self.new.is_read_only ≡ self.old.is_read_only }
    {
        self.flush()?;
        if self.is_lost {
            return Err(io::ErrorKind::Other.into());
        }
        let stored = self.file.sync_data();
        self.is_lost = stored.is_err();
        stored
    }
}

impl<F: FileExt + OpenFile + Drop> Device for FileDevice<F> {
    ghost use Rattle.sn_filedev.specs.FileDevice.{untold, status_of, block_of, gathered_of, is_lost, is_read_only};

    ghost tells_bytes = { false };

    ghost status = { status_of };

    ghost disk = { λ _. untold };

    ghost count = { λ d told. absurd (false≢true told) };

    ghost whole = { λ d told. absurd (false≢true told) };

    ghost time = { λ d told. absurd (false≢true told) };

    fn status(&self) -> Status {
        self.status
    }

    fn read(&mut self, at: u64, sector: &mut [u8; 512]) -> Result<(), Fault>
        requires { at < (status_of self.old).sectors }
        ensures counts { Counts (λ s. s) result (status_of self.old) (status_of self.new) }
        ensures sectors { (status_of self.new).sectors ≡ (status_of self.old).sectors }
        ensures unread { OnErr result (sector.new ≡ sector.old) }
        ensures lost { is_lost self.new ≡ is_lost self.old }
        ensures access { is_read_only self.new ≡ is_read_only self.old }

        // It gives what the block of the sector had when it was read.
        ensures shown { OnOk result (Shows (block_of self.new) at sector.new) }
    {
        if self.status.has_ended() {
            return Err(Fault);
        }
        if self.fetch(at).is_err() {
            self.status.count_failure();
            return Err(Fault);
        }
        self.block.copy_to(at % SECTORS_PER_BLOCK, sector);
        Ok(())
    }

    fn write(&mut self, at: u64, sector: &[u8; 512]) -> Result<(), Fault>
        requires { at < (status_of self.old).sectors }
        ensures counts { CountsOrEnds one_write result (status_of self.old) (status_of self.new) }
        ensures sectors { (status_of self.new).sectors ≡ (status_of self.old).sectors }
        ensures lost { is_lost self.new ≡ is_lost self.old }
        ensures access { is_read_only self.new ≡ is_read_only self.old }

        // Where it succeeds, its bytes wait to be written to the file. Over a file that is there to be
        // read alone it doesn't.
        ensures waits { OnOk result
            (Gathers at sector.now (gathered_of self.old) (gathered_of self.new)) }
        ensures reading { IsTrue (is_read_only self.old) → IsErr result }
    {
        if self.status.has_ended() {
            return Err(Fault);
        }
        self.status.count_write();
        if self.gather(at, sector).is_err() {
            self.status.count_failure();
            return Err(Fault);
        }
        Ok(())
    }

    fn sync(&mut self) -> Result<(), Fault>
        ensures counts { CountsOrEnds one_sync result (status_of self.old) (status_of self.new) }
        ensures sectors { (status_of self.new).sectors ≡ (status_of self.old).sectors }

        // Where it succeeds, no write waits any more. After a sync that the file failed none succeeds.
        ensures none_waits { OnOk result ((gathered_of self.new).bytes.items ≡ []) }
        ensures lost { IsTrue (is_lost self.old) → IsErr result × IsTrue (is_lost self.new) }
        ensures access { is_read_only self.new ≡ is_read_only self.old }
    {
        if self.status.has_ended() {
            return Err(Fault);
        }
        self.status.count_sync();
        if self.settle().is_err() {
            self.status.count_failure();
            return Err(Fault);
        }
        Ok(())
    }
}
