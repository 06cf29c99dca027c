//! A disk, mounted or not.

use crate::asking::{event_of, getacl, line_of, mkdir, number_of, stat};
use crate::devices::{least_device, new_device};
use crate::looking::{line_of_known, line_of_node, object_of};
use crate::mounted::Mounted;
use crate::tears::crashed;
use anyhow::{Result, bail, ensure};
use sn_device::{Device, Fill, MemDevice, SECTOR_SIZE, Sector};
use sn_mkfs::mkfs;
use sn_model::{AclKind, Call, Event, FileData, MountFault, Reply};
use sn_walk::Path;
use std::alloc::Global;
use std::mem;

/// A disk in memory, and the file system on it while it is mounted. What asks the file system is an error where it isn't
/// mounted, and what reads, writes or plans faults of the device is one where it is. Each call may lack memory, which is an
/// error too; one of a mount or a call of the file system is answered as that answers it.
#[derive(Drop)]
pub struct Disk {
    alloc: Global,
    state: State,
}

#[derive(Drop)]
enum State {
    /// Boxed, so that the drop of a disk is a call of the drop of what is boxed, and not all of that.
    Mounted(Box<Mounted>),
    Unmounted(MemDevice),
}

impl Disk {
    /// A disk that is this device, with the faults that are planned of it.
    pub fn of_device(alloc: Global, device: MemDevice) -> Disk {
        Disk {
            alloc,
            state: State::Unmounted(device),
        }
    }

    /// A disk of 4,096 blocks, formatted, on which short changes fill the log before they fill the blocks.
    pub fn large(alloc: Global) -> Result<Disk> {
        Ok(Disk::of_device(alloc, new_device(alloc)?))
    }

    /// A disk of 256 blocks, the fewest that there may be, formatted.
    pub fn least(alloc: Global) -> Result<Disk> {
        Ok(Disk::of_device(alloc, least_device(alloc)?))
    }

    /// A disk of so many sectors, formatted for so many blocks where it has them. Else all of it are zeros.
    pub fn formatted(alloc: Global, sectors: u32, blocks: u32) -> Result<Disk> {
        let device = MemDevice::new(alloc, u64::from(sectors))?;
        Ok(match mkfs(alloc, device, blocks) {
            Ok(device) => Disk::of_device(alloc, device),
            Err(unformatted) => Disk::of_device(alloc, unformatted.device),
        })
    }

    /// A disk that holds these bytes, without those past the last whole sector.
    pub fn of_bytes(alloc: Global, bytes: &[u8]) -> Result<Disk> {
        Ok(Disk::of_device(alloc, MemDevice::from_bytes(alloc, bytes)?))
    }

    /// The device, which is unmounted and not called. One of no sectors is in its place until another is put there.
    fn take(&mut self) -> Result<MemDevice> {
        let none = State::Unmounted(MemDevice::new(self.alloc, 0)?);
        match mem::replace(&mut self.state, none) {
            State::Mounted(mounted) => Ok(Box::into_inner(mounted).into_device()),
            State::Unmounted(device) => Ok(device),
        }
    }

    /// Mounts it, or says why not.
    pub fn mount(&mut self) -> Result<Option<MountFault>> {
        match Mounted::new(self.alloc, self.take()?) {
            Ok(mounted) => {
                self.state = State::Mounted(Box::new(self.alloc, mounted)?);
                Ok(None)
            }
            Err(unmounted) => {
                self.state = State::Unmounted(unmounted.device);
                Ok(Some(unmounted.fault))
            }
        }
    }

    /// Mounts it where there is no fault, so that one is an error.
    pub fn remount(&mut self) -> Result<()> {
        let fault = self.mount()?;
        ensure!(fault.is_none(), "no mount where there is no fault");
        Ok(())
    }

    /// Unmounts it, and calls nothing of the device.
    pub fn unmount(&mut self) -> Result<()> {
        self.state = State::Unmounted(self.take()?);
        Ok(())
    }

    /// A crash that fills so what wasn't synced. It leaves the disk unmounted, its counts at 0, and no fault planned.
    pub fn crash(&mut self, fill: Fill) -> Result<()> {
        let device = self.take()?;
        self.state = State::Unmounted(device.crash(fill));
        Ok(())
    }

    /// A crash that fills or tears what wasn't synced as this number says, which `crashed` says.
    pub fn crash_by(&mut self, number: u32) -> Result<()> {
        let device = crashed(self.alloc, self.take()?, number)?;
        self.state = State::Unmounted(device);
        Ok(())
    }

    /// Lets so many more writes succeed, and no call after them.
    pub fn stop_at(&mut self, writes: u64) -> Result<()> {
        match &mut self.state {
            State::Unmounted(device) => device.stop_at(writes),
            State::Mounted(_) => bail!("a disk that is mounted"),
        }
        Ok(())
    }

    /// Lets one call fail, that after so many.
    pub fn fail_behind(&mut self, calls: u32) -> Result<()> {
        match &mut self.state {
            State::Unmounted(device) => device.fail_at(u64::from(calls) + 1),
            State::Mounted(_) => bail!("a disk that is mounted"),
        }
        Ok(())
    }

    /// How many writes succeeded since the last crash.
    pub fn writes(&self) -> Result<u64> {
        match &self.state {
            State::Unmounted(device) => Ok(device.status().writes),
            State::Mounted(_) => bail!("a disk that is mounted"),
        }
    }

    /// Whether a call failed since the last crash.
    pub fn has_failed(&self) -> Result<bool> {
        match &self.state {
            State::Unmounted(device) => Ok(device.status().failures > 0),
            State::Mounted(_) => bail!("a disk that is mounted"),
        }
    }

    /// The bytes of so many sectors from one on, and of no more than there are.
    pub fn bytes(&self, first: usize, count: usize) -> Result<Vec<u8>> {
        let mut bytes = Vec::new(self.alloc);
        self.push_bytes(first, count, &mut bytes)?;
        Ok(bytes)
    }

    fn push_bytes(&self, first: usize, count: usize, bytes: &mut Vec<u8>) -> Result<()> {
        let State::Unmounted(device) = &self.state else {
            bail!("a disk that is mounted");
        };
        for sector in device.contents().iter().skip(first).take(count) {
            bytes.extend_from_slice(sector)?;
        }
        Ok(())
    }

    /// The bytes of a sector. One that isn't there, and a read that fails, are errors.
    pub fn read(&mut self, at: u64) -> Result<Sector> {
        let State::Unmounted(device) = &mut self.state else {
            bail!("a disk that is mounted");
        };
        let mut sector = [0; SECTOR_SIZE];
        ensure!(at < device.sectors(), "no such sector");
        let is_read = device.read(at, &mut sector).is_ok();
        ensure!(is_read, "a read that failed");
        Ok(sector)
    }

    /// Writes a sector. One that isn't there, and a write that fails, are errors.
    pub fn write(&mut self, at: u64, sector: &Sector) -> Result<()> {
        let State::Unmounted(device) = &mut self.state else {
            bail!("a disk that is mounted");
        };
        ensure!(at < device.sectors(), "no such sector");
        let is_written = device.write(at, sector).is_ok();
        ensure!(is_written, "a write that failed");
        Ok(())
    }

    fn call(&mut self, session: u32, call: &Call) -> Result<Reply> {
        match &mut self.state {
            State::Mounted(mounted) => Ok(mounted.call(session, call)),
            State::Unmounted(_) => bail!("a disk that isn't mounted"),
        }
    }

    fn step(&mut self) -> Result<Reply> {
        match &mut self.state {
            State::Mounted(mounted) => Ok(mounted.step()),
            State::Unmounted(_) => bail!("a disk that isn't mounted"),
        }
    }

    /// The free blocks of the root that counts.
    pub fn free(&self) -> Result<u32> {
        match &self.state {
            State::Mounted(mounted) => Ok(mounted.free()),
            State::Unmounted(_) => bail!("a disk that isn't mounted"),
        }
    }

    /// The line of what a path leads user 0 to.
    pub fn find(&mut self, path: &str) -> Result<String> {
        let Ok(path) = Path::parse(path.as_bytes()) else {
            bail!("no path");
        };
        match &mut self.state {
            State::Mounted(mounted) => line_of_known(self.alloc, &mounted.find(path)),
            State::Unmounted(_) => bail!("a disk that isn't mounted"),
        }
    }

    /// The line of what is known of the node with this number in a tree, `live` or a snapshot's.
    pub fn node(&mut self, tree: &str, number: u16) -> Result<String> {
        let object = object_of(tree, number)?;
        match &mut self.state {
            State::Mounted(mounted) => line_of_node(self.alloc, &mounted.node(object)),
            State::Unmounted(_) => bail!("a disk that isn't mounted"),
        }
    }

    /// The blocks that calls can still be charged for.
    pub fn left(&self) -> Result<u32> {
        match &self.state {
            State::Mounted(mounted) => Ok(mounted.left()),
            State::Unmounted(_) => bail!("a disk that isn't mounted"),
        }
    }

    /// The sectors that records can still take.
    pub fn log_left(&self) -> Result<u64> {
        match &self.state {
            State::Mounted(mounted) => Ok(mounted.log_left()),
            State::Unmounted(_) => bail!("a disk that isn't mounted"),
        }
    }

    fn told(&mut self, session: u32, call: &Call) -> Result<String> {
        let reply = self.call(session, call)?;
        line_of(self.alloc, &reply)
    }

    fn told_of_step(&mut self) -> Result<String> {
        let reply = self.step()?;
        line_of(self.alloc, &reply)
    }

    /// The line of the reply to a call or a step. A restart is an error.
    pub fn answer(&mut self, event: &Event) -> Result<String> {
        match event {
            Event::Call { session, call } => self.told(*session, call),
            Event::Step => self.told_of_step(),
            Event::Restart => bail!("no call"),
        }
    }

    /// The line of the reply to a script's line, a call or a step. Each is given without its end, and returned with it.
    pub fn ask(&mut self, line: &str) -> Result<String> {
        let event = event_of(self.alloc, line)?;
        self.answer(&event)
    }

    /// Whether a script's line is answered by this line, which has its end.
    pub fn is_told(&mut self, line: &str, wanted: &str) -> Result<bool> {
        let told = self.ask(line)?;
        Ok(told.as_str() == wanted)
    }

    /// The line of the reply of session 0.
    fn told_first(&mut self, call: Call) -> Result<String> {
        self.told(0, &call)
    }

    /// Logs the user 0 in as session 0.
    pub fn login(&mut self) -> Result<()> {
        self.ask("0 login 0 0 -")?;
        Ok(())
    }

    /// The line of the reply of session 0 to a mkdir.
    pub fn mkdir(&mut self, path: &str, mode: u16) -> Result<String> {
        self.told_first(mkdir(self.alloc, path, mode)?)
    }

    /// The line of the reply of session 0 to a stat.
    pub fn stat(&mut self, path: &str) -> Result<String> {
        self.told_first(stat(self.alloc, path)?)
    }

    /// The line of the reply of session 0 to a getacl.
    pub fn acl(&mut self, path: &str, kind: AclKind) -> Result<String> {
        self.told_first(getacl(self.alloc, path, kind)?)
    }

    /// The number of the node at a path, as session 0 sees it.
    pub fn number(&mut self, path: &str) -> Result<Option<u16>> {
        self.number_told(stat(self.alloc, path)?)
    }

    fn number_told(&mut self, call: Call) -> Result<Option<u16>> {
        let reply = self.call(0, &call)?;
        Ok(number_of(&reply))
    }

    /// The line of the reply of session 0 to a write of so many bytes, all of them this one.
    pub fn write_all(&mut self, fd: u32, byte: u8, count: usize) -> Result<String> {
        let bytes = FileData::new(Vec::from_elem(self.alloc, byte, count)?);
        self.told_first(Call::Write { fd, bytes })
    }
}
