//! Looks at the trees as user 0 does, beside the calls, and how much disk and log are left.
ghost use Rattle.std.specs.Prelude.{◌≡◌, ◌-◌, false, IsTrue, IfErr, IfOk, OnOk};
ghost use Rattle.sn_fs.specs.Filesystem.{IsFs, has_stopped, held};
ghost use Rattle.sn_fs.specs.Looking.{IsUnseen};
ghost use Rattle.sn_limits.specs.Versions.{limits_written};
ghost use Rattle.sn_live_view.specs.Looking.{known_at, known_by};
ghost use Rattle.sn_model.specs.Settling.{nameless_in};
ghost use Rattle.sn_model.specs.World.{trees_of, viewed_trees};
ghost use Rattle.sn_held.specs.Rooms.{left};
ghost use Rattle.sn_walk.specs.Views.{attributes_at};

use crate::Fs;
use sn_device::Device;
use sn_limits::Limits;
use sn_live_view::{Known, Sought};
use sn_live_world::LookFault;
use sn_walk::{Attributes, Object, Path};

// The last sector of a half of the log, which no record takes: the gate after the last record.
const LAST_GATE: u64 = 255;

impl<D: Device> Fs<D> {
    /// What is sought. Nothing is written, and nothing changes but what the device counts of a read that failed.
    fn look_up(&mut self, sought: &Sought<'_>) -> Result<Option<Known>, LookFault>
        requires { IsFs self.old }
        ensures found { IsTrue D.tells_bytes → IfOk result (λ known. known ≡ known_at (viewed_trees (trees_of (held self.old).world)) sought.now) }
        ensures quiet { IsTrue D.tells_bytes → OnOk result (held self.new ≡ held self.old) }
        ensures unseen { IsTrue D.tells_bytes → has_stopped self.old ≡ false → IfErr result (λ fault. IsUnseen fault (held self.old) (held self.new)) }
        ensures stopped { has_stopped self.new ≡ has_stopped self.old }
        ensures sound { IsFs self.new }
    {
        if self.has_stopped {
            return Err(LookFault::Read);
        }
        self.world
            .look_up(self.alloc, &mut self.blocks, &self.base.root, sought)
    }

    /// What a path leads user 0 to, with what is known of it, and `None` where it leads to nothing. No call is made and
    /// nobody has to be logged in. `Read` where a block can't be read, and from a mount that has stopped.
    ///
    /// Proved, also of `Fs::node`: What user 0 finds is what the model's walk finds in the world over which the mount runs;
    /// nothing changes but what the device counts of a read that failed.
    pub fn find(&mut self, path: Path<'_>) -> Result<Option<Known>, LookFault>
        requires { IsFs self.old }
        ensures found { IsTrue D.tells_bytes → IfOk result (λ known. known ≡ known_by (viewed_trees (trees_of (held self.old).world)) path.entry) }
        ensures quiet { IsTrue D.tells_bytes → OnOk result (held self.new ≡ held self.old) }
        ensures unseen { IsTrue D.tells_bytes → has_stopped self.old ≡ false → IfErr result (λ fault. IsUnseen fault (held self.old) (held self.new)) }
        ensures stopped { has_stopped self.new ≡ has_stopped self.old }
        ensures sound { IsFs self.new }
    {
        self.look_up(&Sought::Path(path))
    }

    /// What is known of an object, and `None` where no node has its number, as for a file whose last name and descriptor
    /// are gone. Faults are those of [`Fs::find`].
    pub fn node(&mut self, object: Object) -> Result<Option<Attributes>, LookFault>
        requires { IsFs self.old }
        ensures found { IsTrue D.tells_bytes → IfOk result (λ attributes. attributes ≡ attributes_at (viewed_trees (trees_of (held self.old).world)) object) }
        ensures quiet { IsTrue D.tells_bytes → OnOk result (held self.new ≡ held self.old) }
        ensures unseen { IsTrue D.tells_bytes → has_stopped self.old ≡ false → IfErr result (λ fault. IsUnseen fault (held self.old) (held self.new)) }
        ensures stopped { has_stopped self.new ≡ has_stopped self.old }
        ensures sound { IsFs self.new }
    {
        match self.look_up(&Sought::Object(object))? {
            Some(known) => Ok(Some(known.attributes)),
            None => Ok(None),
        }
    }

    /// The data blocks that calls can still be charged for: the free ones of the root that counts, less what was charged
    /// since and an inode's charge for each file without names. The reserve, which only `unlink` and `rmdir` use, is among
    /// them. Of a mount that has stopped it says nothing.
    ///
    /// Proved: What is left is what is free less what is charged and parked.
    pub fn left(&self) -> u32
        requires { IsFs self.now }
        ensures { IsTrue D.tells_bytes → has_stopped self.now ≡ false → result ≡ left limits_written (held self.now).room (nameless_in (held self.now).world.live) }
    {
        self.room.left(&Limits::WRITTEN, self.world.nameless())
    }

    /// How many sectors records can still take in the half of the log in use. A record of 28,672 bytes takes 59.
    ///
    /// Proved: What is left of the log is what is left in its half.
    pub fn log_left(&self) -> u64
        ensures { result ≡ 255 - (held self.now).at.place }
    {
        LAST_GATE.saturating_sub(self.log.position().place())
    }
}
