//! Unmounts.
ghost use Rattle.std.specs.Prelude.{◌≡◌, false, true, IsTrue, IfErr, IfOk, OnOk};
ghost use Rattle.sn_live.specs.Unnamed.{DropsNameless};
ghost use Rattle.sn_live_world.specs.World.{changes_of};
ghost use Rattle.sn_model.specs.declared.reply.Errno.TheVariants.{Estopped};
ghost use Rattle.sn_overlay.specs.Overlays.{layer_of};
ghost use Rattle.sn_events.specs.Pointing.{stops_point};
ghost use Rattle.sn_events.specs.Unmounting.{HasUnmounted, IsRefusedTo, PointsLast};
ghost use Rattle.sn_fs.specs.Filesystem.{IsFs, has_stopped, held};

use crate::pointing::{errno_of, stops};
use crate::{Fs, StillMounted};
use sn_cp_whole::{PointFault, make_point};
use sn_device::Device;
use sn_model::{AskedPoint, Errno};
use sn_overlay::Overlay;

impl<D: Device> Fs<D> {
    /// Makes a whole consistency point of what changed without the files that have no name. Where it isn't made,
    /// nothing that is kept changes.
    fn make_last_point(&mut self, changed: &Overlay) -> Result<(), PointFault>
        requires running { has_stopped self.old ≡ false }
        requires sound { IsFs self.old }
        requires between { (held self.old).point ≡ None }
        requires settled { IsTrue D.tells_bytes → DropsNameless (held self.old).world.live (changes_of self.old.world) (layer_of changed.now) }
        ensures points { IsTrue D.tells_bytes → PointsLast result (held self.old) (held self.new) }
        ensures stopped { has_stopped self.new ≡ stops_point result }
        ensures sound { IfErr result (λ fault. IsFs self.new) }
    {
        let mut room = self.room;
        room.drop_files(self.world.nameless());
        match make_point(
            self.alloc,
            &mut self.blocks,
            &mut self.base,
            changed,
            &mut self.log,
            &mut room,
            0,
            &AskedPoint::Plain,
        ) {
            Ok(since) => {
                drop(since);
                Ok(())
            }
            Err(fault) => {
                self.has_stopped = stops(fault);
                Err(fault)
            }
        }
    }

    /// Finishes the consistency point in progress, makes a whole one of the tree without the files that have no name,
    /// so that the next mount finds it in the root, and hands the device back. ENOMEM, EIO where a block can't be read, and
    /// ELIMIT where no root can follow change nothing but that: the file system stays mounted. EIO where the device fails while it
    /// is written stops it, and ESTOPPED is returned where that was before.
    ///
    /// Proved, also of `Fs::call`: The point in progress is finished first, with the writes and syncs that were left of it,
    /// where a call lacks something or asks for a point, and by an unmount: then its root counts, with what was logged since
    /// it began, and numbers that were kept back before aren't any more.
    /// Proved: An unmount finishes the point in progress and makes a whole one of the tree without the files that have no
    /// name; a crash at any moment of it leaves the settled world, and where it is refused for memory, age or a block
    /// that can't be read, nothing has changed.
    pub fn unmount(self) -> Result<D, StillMounted<D>>
        requires { IsFs self }
        ensures unmounted { IsTrue D.tells_bytes → IfOk result (λ device. HasUnmounted (held self) (D.disk device) (D.status device)) }
        ensures running { OnOk result (has_stopped self ≡ false) }
        ensures refused { IsTrue D.tells_bytes → IfErr result (λ s. has_stopped self ≡ false
            → IsRefusedTo s.errno (held self) (held s.fs) (has_stopped s.fs)) }
        ensures stopped { IfErr result (λ s. has_stopped self ≡ true → (s.errno ≡ Estopped) × (held s.fs ≡ held self) × (has_stopped s.fs ≡ true)) }
        ensures sound { IfErr result (λ s. IsFs s.fs) }
    {
        let mut fs = self;
        if fs.has_stopped {
            return Err(StillMounted {
                errno: Errno::Estopped,
                fs,
            });
        }
        if let Err(fault) = fs.finish() {
            return Err(StillMounted {
                errno: errno_of(fault),
                fs,
            });
        }
        let Ok(changed) = fs.world.settled_changes(fs.alloc) else {
            return Err(StillMounted {
                errno: Errno::Enomem,
                fs,
            });
        };
        let made = fs.make_last_point(&changed);
        drop(changed);
        match made {
            Ok(()) => Ok(fs.into_device()),
            Err(fault) => Err(StillMounted {
                errno: errno_of(fault),
                fs,
            }),
        }
    }
}
