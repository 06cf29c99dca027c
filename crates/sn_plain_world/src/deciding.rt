//! The outcomes of calls over the tree in memory and the sessions.
ghost use Rattle.std.specs.Prelude.{IfOk};
ghost use Rattle.sn_model.specs.Worlds.{IsCall};
ghost use Rattle.sn_plain_world.specs.Served.{Decides};

use crate::PlainWorld;
use crate::fault::WorldError;
use sn_core_decide as calls;
use sn_model::{Call, Outcome};
use std::alloc::Global;

impl PlainWorld {
    ghost use Rattle.sn_plain_world.specs.Plain.{world_of};

    /// The outcome of a call, or its first refusal. `Memory` is returned only once its session and
    /// arguments have passed. Nothing changes.
    ///
    /// Proved: The outcome of a call is what the model decides.
    pub fn decide<'a>(
        &self,
        alloc: Global,
        session: u32,
        call: &'a Call,
    ) -> Result<Outcome<'a>, WorldError>
        ensures decided { Decides (world_of self.now) session call.now result }
        ensures numbers { IfOk result (λ o. IsCall call.now) }
    {
        let mut view = self.view();
        Ok(calls::decide(alloc, &mut view, &self.sessions, session, call)?)
    }
}
