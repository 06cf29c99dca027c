//! What a server serves.
ghost use Rattle.std.specs.Prelude.{◌≡◌, ◌∷◌, [], List, Bool, false, ⊤};
ghost use Rattle.sn_plan.specs.Acts.{Act, Called, Counted, Found, Seen};
ghost use Rattle.sn_plan.specs.Acts.{Grows};

use crate::errors::LookFault;
use sn_model::{Call, Reply};
use sn_walk::Attributes;

/// How much room a file system has.
#[derive(Clone, Copy, PartialEq, Eq, Debug)]
pub struct Space {
    /// The blocks of its data area.
    pub blocks: u64,
    /// The free ones that no change was charged with, and that no tree holds that is to go.
    pub left: u64,
}

/// What a server serves: it answers calls, and looks at what is there.
///
/// Each object has a number, by which the mount shows it: two objects have two, and so has a snapshot that was deleted and one that is made
/// under its name later.
pub trait FileSystem {
    /// Whether these acts are what was done from the second one on up to the first, in this order. Of one of which that isn't known nothing is.
    ghost did: { Self → Self → List Act → Type 0 } = { λ _ _ _. ⊥ };

    /// Whether a failure has stopped it for good.
    ghost stopped: { Self → Bool } = { λ _. false };

    /// Whether the work that was due at the first was done at the second.
    ghost paces: { Self → Self → Type 0 } = { λ _ _. ⊤ };

    /// The reply to a call of a session.
    fn call(&mut self, session: u32, call: &Call) -> Reply
        ensures { Grows (did self.old) (did self.new) (Called session call.now result ∷ []) };

    /// The number of what a path leads user 0 to, `None` where it leads to nothing, also where it is misspelt. Nothing changes.
    fn find(&mut self, path: &[u8]) -> Result<Option<u64>, LookFault>
        ensures { Grows (did self.old) (did self.new) (Found path.now result ∷ []) };

    /// The attributes of the object with a number, `None` where there is none. Nothing changes.
    fn node(&mut self, number: u64) -> Result<Option<Attributes>, LookFault>
        ensures { Grows (did self.old) (did self.new) (Seen number result ∷ []) };

    /// How much room there is. Nothing changes.
    fn space(&mut self) -> Space
        ensures { Grows (did self.old) (did self.new) (Counted result ∷ []) };

    /// Whether a failure has stopped it for good: then it carries out no call.
    fn has_stopped(&self) -> bool
        ensures { result ≡ stopped self.now };

    /// Does the work that is due after calls, for which nobody waits. It is no act.
    fn keep_pace(&mut self)
        ensures quiet { Grows (did self.old) (did self.new) [] }
        ensures due { paces self.old self.new };
}
