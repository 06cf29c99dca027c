//! The outcome of a call, over the live tree as it is read.
ghost use Rattle.std.specs.Prelude.{◌≡◌, false, Ok, IsTrue, IfErr, IfOk, OnOk};
ghost use Rattle.sn_events.specs.Serving.{IsUndecided};
ghost use Rattle.sn_fs.specs.Filesystem.{IsFs, has_stopped, held};
ghost use Rattle.sn_limits.specs.Versions.{limits_written};
ghost use Rattle.sn_model.specs.Steps.{decision};
ghost use Rattle.sn_model.specs.Worlds.{IsCall};

use crate::Fs;
use sn_device::Device;
use sn_live_world::CallFault;
use sn_model::{Call, Outcome};

impl<D: Device> Fs<D> {
    /// The outcome of a call, or why it has none. Nothing is written, and nothing changes but what the device counts of a
    /// read that failed.
    pub(crate) fn decide<'c>(
        &mut self,
        session: u32,
        call: &'c Call,
    ) -> Result<Outcome<'c>, CallFault>
        requires running { has_stopped self.old ≡ false }
        requires sound { IsFs self.old }
        ensures quiet { IsTrue D.tells_bytes → OnOk result (held self.new ≡ held self.old) }
        ensures decided { IsTrue D.tells_bytes → IfOk result (λ o. decision limits_written (held self.old).world session call.now ≡ Ok o) }
        ensures undecided { IsTrue D.tells_bytes → IfErr result (λ e. IsUndecided e (held self.old) session call.now (held self.new)) }
        ensures numbers { IfOk result (λ o. IsCall call.now) }
        ensures rest { self.new ≡ record self.old { blocks = self.new.blocks } }
        ensures sound { IsFs self.new }
    {
        self.world.decide(self.alloc, &mut self.blocks, &self.base.root, session, call)
    }
}
