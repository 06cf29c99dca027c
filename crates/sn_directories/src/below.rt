//! A tree below an overlay that is asked by names which are lent.

use sn_model::Link;
use sn_overlay::{Below, Through};

/// A tree below an overlay that keeps a name, so that layers can be asked for it.
pub trait KeepsNames: Below {
    ghost use Rattle.std.specs.Prelude.{◌≡◌, IsTrue, IfOk, IfErr};
    ghost use Rattle.sn_model.specs.Tree.{link_to};
    ghost use Rattle.sn_walk.specs.Frame.{Leaves};

    /// A name of a directory that is lent, with memory of its own. A fault is one of memory.
    fn keep_name(&mut self, directory: u16, name: &[u8]) -> Result<Link, Self::Fault>
        requires { Self.holds self.old }
        ensures left { Leaves Self.holds Self.follows Self.is_told Self.shows self.old self.new }
        ensures link { IfOk result (λ link. link ≡ link_to directory name.now) }
        ensures cause { IfErr result (λ f. Self.causes self.old self.new f) };
}

impl<'a, B: KeepsNames> KeepsNames for Through<'a, B> {
    fn keep_name(&mut self, directory: u16, name: &[u8]) -> Result<Link, B::Fault> {
        self.below.keep_name(directory, name)
    }
}
