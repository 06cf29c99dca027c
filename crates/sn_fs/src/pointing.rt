//! Consistency points: whole ones, and one in progress, step by step.
ghost use Rattle.std.specs.Prelude.{◌≡◌, ◌≢◌, false, true, None, IsTrue, OnOk};
ghost use Rattle.sn_cp.specs.Points.{stage_of};
ghost use Rattle.sn_cp.specs.declared.stage.Stage.TheVariants.{Bodied};
ghost use Rattle.sn_model.specs.declared.call.Event.TheVariants as event;
ghost use Rattle.sn_events.specs.Answers.{Answers, left_of};
ghost use Rattle.sn_live_world.specs.Restored.{IsBetween};
ghost use Rattle.sn_fs.specs.Filesystem.{IsFs, has_stopped, held, with_point};
ghost use Rattle.sn_events.specs.Pointing.{Advances, Begins, BringsBack, CanBringBack, CanMake, CanPoint, Finishes, GoesOn, IsToBringBack, MakesAsked, Points, errno_of_point, point_fault, stops_for, stops_point};

use crate::Fs;
use crate::serving::refused;
use sn_cp_whole::{Begun, GoingPoint, PointFault, begin_point, make_point, make_restore};
use sn_device::Device;
use sn_limits::SnapshotName;
use sn_live_world::{LookFault, RestoredTree, prepare_restore};
use sn_model::{AskedPoint, Errno, Progress, Reply};

/// What an event is refused with whose point isn't made.
pub(crate) fn errno_of(fault: PointFault) -> Errno
    ensures { result ≡ errno_of_point fault }
{
    match fault {
        PointFault::Memory => Errno::Enomem,
        PointFault::Age => Errno::Elimit,
        PointFault::Read | PointFault::Damaged | PointFault::Device => Errno::Eio,
    }
}

/// Whether it stops the mount.
pub(crate) fn stops(fault: PointFault) -> bool
    ensures { result ≡ stops_for fault }
{
    fault == PointFault::Device
}

/// Why a point isn't made of a snapshot that couldn't be read.
fn unread(fault: LookFault) -> PointFault
    ensures { result ≡ point_fault fault }
{
    match fault {
        LookFault::Memory => PointFault::Memory,
        LookFault::Read => PointFault::Read,
    }
}

impl<D: Device> Fs<D> {
    /// Makes a whole consistency point, where none is in progress, and of the snapshots what is asked for: then the log is
    /// empty, nothing is charged, and no number is kept back. A failure of the device while it is written stops the mount.
    pub(crate) fn make_point(&mut self, asked: &AskedPoint) -> Result<(), PointFault>
        requires running { has_stopped self.old ≡ false }
        requires sound { IsFs self.old }
        requires between { (held self.old).point ≡ None }
        requires asked { IsTrue D.tells_bytes → CanPoint asked.now (held self.old).world }
        ensures points { IsTrue D.tells_bytes → Points result asked.now (held self.old) (held self.new) }
        ensures stopped { has_stopped self.new ≡ stops_point result }
        ensures between { OnOk result ((held self.new).point ≡ None) }
        ensures sound { IsFs self.new }
    {
        let drops = self.world.open_files();
        match make_point(
            self.alloc,
            &mut self.blocks,
            &mut self.base,
            self.world.changes(),
            &mut self.log,
            &mut self.room,
            drops,
            asked,
        ) {
            Ok(since) => {
                self.world.replace_root(self.alloc, since);
                Ok(())
            }
            Err(fault) => {
                self.has_stopped = stops(fault);
                Err(fault)
            }
        }
    }

    /// Brings a snapshot back by a whole consistency point, where none is in progress: the live tree becomes the snapshot's
    /// without its files without names, and what was logged on top of the root goes with it. All that is read and grown
    /// comes before the first write, and where that is refused nothing changes. A failure of the device while it is written
    /// stops the mount.
    fn bring_back(&mut self, name: &SnapshotName) -> Result<(), PointFault>
        requires running { has_stopped self.old ≡ false }
        requires sound { IsFs self.old }
        requires between { (held self.old).point ≡ None }
        requires there { IsTrue D.tells_bytes → CanBringBack name.now (held self.old) }
        ensures brings { IsTrue D.tells_bytes → BringsBack result name.now (held self.old) (held self.new) }
        ensures stopped { has_stopped self.new ≡ stops_point result }
        ensures sound { IsFs self.new }
    {
        let restored = match prepare_restore(self.alloc, &mut self.blocks, &self.base.root, name) {
            Ok(restored) => restored,
            Err(fault) => return Err(unread(fault)),
        };
        self.replace_tree(restored, name)
    }

    /// Makes the point that brings a snapshot back, of which this tree was prepared.
    fn replace_tree(
        &mut self,
        restored: RestoredTree,
        name: &SnapshotName,
    ) -> Result<(), PointFault>
        requires running { has_stopped self.old ≡ false }
        requires sound { IsFs self.old }
        requires between { (held self.old).point ≡ None }
        requires apart { IsBetween restored }
        requires there { IsTrue D.tells_bytes → IsToBringBack restored name.now (held self.old) }
        ensures brings { IsTrue D.tells_bytes → BringsBack result name.now (held self.old) (held self.new) }
        ensures stopped { has_stopped self.new ≡ stops_point result }
        ensures sound { IsFs self.new }
    {
        let drops = self.world.open_files();
        match make_restore(
            self.alloc,
            &mut self.blocks,
            &mut self.base,
            restored.changes(),
            &mut self.log,
            &mut self.room,
            drops,
            name,
        ) {
            Ok(since) => {
                self.world.restore(self.alloc, restored, since);
                // It bounds the files without names.
                let _nameless = self.world.nameless();
                Ok(())
            }
            Err(fault) => {
                self.has_stopped = stops(fault);
                Err(fault)
            }
        }
    }

    /// Makes the whole consistency point that is asked for, where none is in progress.
    pub(crate) fn make_asked(&mut self, asked: &AskedPoint) -> Result<(), PointFault>
        requires running { has_stopped self.old ≡ false }
        requires sound { IsFs self.old }
        requires between { (held self.old).point ≡ None }
        requires can { IsTrue D.tells_bytes → CanMake asked.now (held self.old) }
        ensures makes { IsTrue D.tells_bytes → MakesAsked result asked.now (held self.old) (held self.new) }
        ensures stopped { has_stopped self.new ≡ stops_point result }
        ensures sound { IsFs self.new }
    {
        match asked {
            AskedPoint::Restores(name) => self.bring_back(name),
            AskedPoint::Unasked
            | AskedPoint::Plain
            | AskedPoint::Freezes(_)
            | AskedPoint::Thaws(_) => self.make_point(asked),
        }
    }

    /// Begins a consistency point, where none is in progress: what changes from then on comes after it. A failure of the device
    /// stops the mount.
    fn begin(&mut self) -> Result<(), PointFault>
        requires running { has_stopped self.old ≡ false }
        requires sound { IsFs self.old }
        requires between { (held self.old).point ≡ None }
        ensures begins { IsTrue D.tells_bytes → Begins result (held self.old) (held self.new) }
        ensures stopped { has_stopped self.new ≡ stops_point result }
        ensures sound { IsFs self.new }
    {
        let drops = self.world.open_files();
        match begin_point(
            self.alloc,
            &mut self.blocks,
            &self.base,
            self.world.changes(),
            &mut self.log,
            drops,
            &AskedPoint::Plain,
        ) {
            Ok(begun) => {
                let Begun { going, since } = begun;
                self.world.begin_point(since);
                self.going = Some(going);
                self.room.begin_point();
                Ok(())
            }
            Err(fault) => {
                self.has_stopped = stops(fault);
                Err(fault)
            }
        }
    }

    /// Makes a step of the point in progress that isn't its last. A failure of the device stops the mount.
    fn go_on(&mut self, going: GoingPoint) -> Result<(), PointFault>
        requires running { has_stopped self.old ≡ false }
        requires sound { IsFs (with_point self.old going) }
        requires more { stage_of going.point ≢ Bodied }
        ensures goes_on { IsTrue D.tells_bytes → GoesOn result (held (with_point self.old going)) (held self.new) }
        ensures stopped { has_stopped self.new ≡ stops_point result }
        ensures sound { IsFs self.new }
    {
        let mut going = going;
        match going.advance(&mut self.blocks) {
            Ok(()) => {
                self.going = Some(going);
                Ok(())
            }
            Err(_) => {
                self.has_stopped = true;
                Err(PointFault::Device)
            }
        }
    }

    /// Makes all steps that are left of a point: then its root counts, with what changed since on top of it. A failure of
    /// the device stops the mount.
    fn end(&mut self, going: GoingPoint) -> Result<(), PointFault>
        requires running { has_stopped self.old ≡ false }
        requires sound { IsFs (with_point self.old going) }
        requires alone { (held self.old).point ≡ None }
        ensures finishes { IsTrue D.tells_bytes → Finishes result (held (with_point self.old going)) (held self.new) }
        ensures stopped { has_stopped self.new ≡ stops_point result }
        ensures between { OnOk result ((held self.new).point ≡ None) }
        ensures sound { IsFs self.new }
    {
        let free = going.free;
        let Ok(()) = going.finish(&mut self.blocks, &mut self.base) else {
            self.has_stopped = true;
            return Err(PointFault::Device);
        };
        self.room.end_point(free);
        self.world.end_point(self.alloc);
        Ok(())
    }

    /// Finishes the point in progress, if there is one. A failure of the device stops the mount.
    pub(crate) fn finish(&mut self) -> Result<(), PointFault>
        requires running { has_stopped self.old ≡ false }
        requires sound { IsFs self.old }
        ensures finishes { IsTrue D.tells_bytes → Finishes result (held self.old) (held self.new) }
        ensures stopped { has_stopped self.new ≡ stops_point result }
        ensures between { OnOk result ((held self.new).point ≡ None) }
        ensures sound { IsFs self.new }
    {
        match self.going.take() {
            Some(going) => self.end(going),
            None => Ok(()),
        }
    }

    /// Makes a step of a consistency point: begins one where none is in progress.
    fn advance(&mut self) -> Result<Progress, PointFault>
        requires running { has_stopped self.old ≡ false }
        requires sound { IsFs self.old }
        ensures advances { IsTrue D.tells_bytes → Advances result (held self.old) (held self.new) }
        ensures stopped { has_stopped self.new ≡ stops_point result }
        ensures sound { IsFs self.new }
    {
        let Some(going) = self.going.take() else {
            self.begin()?;
            return Ok(Progress::More);
        };
        if going.is_at_last() {
            self.end(going)?;
            return Ok(Progress::Done);
        }
        self.go_on(going)?;
        Ok(Progress::More)
    }

    /// How many steps the consistency point in progress has left: 0 where none is, and where the mount has stopped.
    pub fn steps_left(&self) -> u64
        requires { IsFs self.now }
        ensures left { has_stopped self.now ≡ false → result ≡ left_of (held self.now).point }
        ensures none { has_stopped self.now ≡ true → result ≡ 0 }
    {
        if self.has_stopped {
            return 0;
        }
        match &self.going {
            Some(going) => going.point.steps_left(),
            None => 0,
        }
    }

    /// Makes a step of a consistency point, of at most eight sectors. The first one begins it, and builds what it writes of
    /// what has changed since the root; the last one says that it is done, with which its root is durable. What calls
    /// change in between is in the log, and comes into the next one. ENOMEM, EIO where a block can't be read, and
    /// ELIMIT where no root can follow come in the first one and change nothing; EIO where the device fails while it is
    /// written to stops the mount.
    ///
    /// Proved: A step begins a point, brings it to its next stage, or finishes it, and says `Done` exactly where the frozen
    /// tree became durable; its writes and syncs are exactly those of that stage, one to eight writes and at most one sync.
    /// Proved, also of `Fs::call`: After a whole point the log is empty, nothing is charged, nothing has changed since the
    /// root, and no number is kept back; its root has the next generation and the next epoch.
    /// Proved, also of `Fs::call`: Where a point is refused for memory, age, or a block that can't be read, nothing was
    /// written and nothing has changed.
    /// Proved, also of `Fs::call` and `Fs::unmount`: A point writes neither the superblock nor the root that counts and its
    /// map, also where it is cut off; nor does a call that makes one first.
    pub fn step(&mut self) -> Reply
        requires { IsFs self.old }
        ensures answered { IsTrue D.tells_bytes → Answers event.Step result
            (held self.old) (has_stopped self.old) (held self.new) (has_stopped self.new) }
        ensures sound { IsFs self.new }
    {
        if self.has_stopped {
            return refused(Errno::Estopped);
        }
        match self.advance() {
            Ok(progress) => Reply::Progress(progress),
            Err(fault) => refused(errno_of(fault)),
        }
    }
}
