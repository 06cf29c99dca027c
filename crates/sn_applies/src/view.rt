//! The tree that a change is to be applied to.

use sn_overlay::Below;

/// A tree of names, as it is read by who asks whether a change can be applied to it.
///
/// A look-up may find a fault, as those of [`Below`], and then says nothing. None changes what the tree
/// shows, and over a device that doesn't tell its bytes none promises an answer.
pub trait NamedTree: Below {
    ghost use Rattle.std.specs.Prelude.{◌≡◌, IsTrue, IfOk, IfErr};
    ghost use Rattle.std.specs.FinMap as map;
    ghost use Rattle.sn_model.specs.Seen.{is_below};
    ghost use Rattle.sn_model.specs.Tree.{link_to, names_in};
    ghost use Rattle.sn_walk.specs.Frame.{Leaves};

    /// The number that a name denotes in a directory. It is what [`Below::link`] finds, of a name
    /// that is lent.
    fn number(&mut self, directory: u16, name: &[u8]) -> Result<Option<u16>, Self::Fault>
        requires { Self.holds self.old }
        ensures left { Leaves Self.holds Self.follows Self.is_told Self.shows self.old self.new }
        ensures found { IsTrue Self.is_told → IfOk result (λ n. n ≡ map.get (Self.shows self.old).links (link_to directory name.now)) }
        ensures cause { IfErr result (λ f. Self.causes self.old self.new f) };

    /// How many names a directory has.
    fn names_in(&mut self, directory: u16) -> Result<u32, Self::Fault>
        requires { Self.holds self.old }
        ensures left { Leaves Self.holds Self.follows Self.is_told Self.shows self.old self.new }
        ensures found { IsTrue Self.is_told → IfOk result (λ n. n ≡ names_in (Self.shows self.old) directory) }
        ensures cause { IfErr result (λ f. Self.causes self.old self.new f) };

    /// Whether a number is a directory's, which is another one or is below it.
    fn is_below(&mut self, top: u16, directory: u16) -> Result<bool, Self::Fault>
        requires { Self.holds self.old }
        ensures left { Leaves Self.holds Self.follows Self.is_told Self.shows self.old self.new }
        ensures found { IsTrue Self.is_told → IfOk result (λ b. b ≡ is_below (Self.shows self.old) top directory) }
        ensures cause { IfErr result (λ f. Self.causes self.old self.new f) };
}
