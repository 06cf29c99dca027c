//! A mounted file system.

use sn_device::MemDevice;
use sn_fs::{Fs, Unmounted, mount};
use sn_live_view::Known;
use sn_live_world::LookFault;
use sn_model::{Call, Reply};
use sn_walk::{Attributes, Object, Path};
use std::alloc::Global;
use std::marker::Model;

/// A mounted file system.
#[derive(Drop)]
pub struct Mounted {
    fs: Fs<MemDevice>,
}

impl Model for Mounted {
    ghost use Rattle.sn_fs.specs.Filesystem.{IsFs};

    ghost Value = { Unit {0} };

    ghost view = { λ m. tt };

    ghost invariant = { λ m. IsFs m.fs };
}

impl Mounted {
    /// Mounts a device, or says why not.
    pub fn new(alloc: Global, device: MemDevice) -> Result<Mounted, Unmounted<MemDevice>> {
        match mount(alloc, device) {
            Ok(fs) => Ok(Mounted { fs }),
            Err(unmounted) => Err(unmounted),
        }
    }

    /// Answers a call of a session.
    pub fn call(&mut self, session: u32, call: &Call) -> Reply {
        self.fs.call(session, call)
    }

    /// The free blocks of the root that counts.
    pub fn free(&self) -> u32 {
        self.fs.free()
    }

    /// What a path leads user 0 to.
    pub fn find(&mut self, path: Path<'_>) -> Result<Option<Known>, LookFault> {
        self.fs.find(path)
    }

    /// What is known of an object.
    pub fn node(&mut self, object: Object) -> Result<Option<Attributes>, LookFault> {
        self.fs.node(object)
    }

    /// The blocks that calls can still be charged for.
    pub fn left(&self) -> u32 {
        self.fs.left()
    }

    /// The sectors that records can still take.
    pub fn log_left(&self) -> u64 {
        self.fs.log_left()
    }

    /// Makes a whole consistency point.
    pub fn step(&mut self) -> Reply {
        self.fs.step()
    }

    /// Hands the device back, and calls nothing of it.
    pub fn into_device(self) -> MemDevice {
        let Mounted { fs } = self;
        fs.into_device()
    }
}
