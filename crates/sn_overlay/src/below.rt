//! The tree that an overlay lies over.

use crate::{Block, FileBlock, SeenNode};
use sn_model::Link;

/// A tree below an overlay, as it is read.
///
/// A look-up may find a fault of the tree's own kind, as a device that failed, and then says nothing.
/// No look-up changes what the tree shows. A tree on a device that doesn't tell its bytes isn't told,
/// and then promises no answer.
pub trait Below {
    ghost use Rattle.std.specs.Prelude.{◌≡◌, Bool, IsTrue, IfOk, OnOk, IfErr};
    ghost use Rattle.std.specs.FinMap as map;
    ghost use Rattle.sn_model.specs.Tree.{Tree};
    ghost use Rattle.sn_overlay.specs.Seen.{seen_node, seen_block};
    ghost use Rattle.sn_walk.specs.Frame.{Leaves};

    type Fault: Drop;

    // whether look-ups are told at all
    ghost is_told: { Bool };

    ghost shows: { Self → Tree };

    // what a look-up needs and keeps
    ghost holds: { Self → Type 0 };

    // what look-ups may do: whether a tree may be a later state of an earlier one
    ghost follows: { Self → Self → Type 0 };

    // whether what happened between an earlier tree and a later one is the cause of a fault
    ghost causes: { Self → Self → Self.Fault → Type 0 };

    /// The node with this number, without its bytes and names.
    fn node(&mut self, number: u16) -> Result<Option<SeenNode>, Self::Fault>
        requires { holds self.old }
        ensures left { Leaves holds follows is_told shows self.old self.new }
        ensures found { IsTrue is_told → IfOk result (λ n. n ≡ seen_node (shows self.old) number) }
        ensures cause { IfErr result (λ f. causes self.old self.new f) };

    /// The number that a name denotes.
    fn link(&mut self, link: &Link) -> Result<Option<u16>, Self::Fault>
        requires { holds self.old }
        ensures left { Leaves holds follows is_told shows self.old self.new }
        ensures found { IsTrue is_told → IfOk result (λ n. n ≡ map.get (shows self.old).links link.now) }
        ensures cause { IfErr result (λ f. causes self.old self.new f) };

    /// Reads a block of a file, which is zeros where the file has ended. At `Err` the block may be any.
    fn read_block(&mut self, file_block: FileBlock, block: &mut Block) -> Result<(), Self::Fault>
        requires { holds self.old }
        ensures left { Leaves holds follows is_told shows self.old self.new }
        ensures found { IsTrue is_told → OnOk result (block.new ≡ seen_block (shows self.old) file_block) }
        ensures cause { IfErr result (λ f. causes self.old self.new f) };

    ghost follows_itself: { (v : Self) → follows v v };

    ghost follows_on: { (u v w : Self) → follows u v → follows v w → follows u w };

    ghost causes_later: { (u v w : Self) (f : Self.Fault) → follows u v → causes v w f → causes u w f };
}
