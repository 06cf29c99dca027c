ghost use Rattle.std.specs.Prelude.{◌≡◌};
ghost use Rattle.sn_model.specs.Settling.{settled};
ghost use Rattle.sn_model.specs.Settling.{nameless_in};

use crate::tree::PlainTree;
use sn_walk::ROOT_NUMBER;

impl PlainTree {
    ghost use Rattle.sn_plain.specs.Plain.{tree_of};

    /// How many files no name stands for. It is kept, and not counted anew.
    ///
    /// Proved: How many files have no name is kept, and not counted anew.
    pub fn nameless(&self) -> u32
        ensures { result ≡ nameless_in (tree_of self.now) }
    {
        self.nodes.nameless()
    }

    /// Takes all files away that no name stands for. It takes no memory, and passes over all nodes.
    pub fn settle(&mut self)
        ensures { tree_of self.new ≡ settled (tree_of self.old) }
    {
        self.nodes.settle();
        self.first = self.nodes.first_unused(ROOT_NUMBER);
    }
}
