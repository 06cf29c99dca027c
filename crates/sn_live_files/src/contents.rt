use sn_core_decide_rules::FileFault;
use sn_model::Link;
use sn_overlay::Below;
use sn_walk::Attributes;
use std::alloc::Global;

/// A tree below an overlay that answers what a walk learns of a node, bytes of a file, and the names of a directory.
///
/// Proved: What a walk learns of a node is what the tree that is seen has, without a copy of its default ACL.
/// Proved: The bytes of a file from an offset on are those of the tree that is seen: as many as asked for, or as there are
/// before its end, and none of a directory or of a number without a node.
/// Proved: The names of a directory, each with its number, are those of the tree that is seen, in the order of their bytes:
/// through an overlay those that changed merged with those below.
/// Proved: The faults are a lack of memory for an answer and the tree's own.
pub trait HasContents: Below {
    ghost use Rattle.std.specs.Prelude.{◌≡◌, ◌+◌, ◌<◌, ◌^◌, IsTrue, IfErr, IfOk, drop, length, take};
    ghost use Rattle.std.specs.FinMap as map;
    ghost use Rattle.std.specs.Option.{option_map};
    ghost use Rattle.sn_core_decide_rules.specs.Faults.{IfLookUp};
    ghost use Rattle.sn_overlay.specs.Layers.{bytes_of};
    ghost use Rattle.sn_overlay.specs.Seen.{seen_node};
    ghost use Rattle.sn_live_files.specs.Known.{attributes_of};
    ghost use Rattle.sn_live_files.specs.Listing.{links_of};
    ghost use Rattle.sn_walk.specs.Frame.{Leaves};

    /// What a walk learns of the node that a number has, `None` where none has it: less than the
    /// whole node, which has its default ACL too.
    fn attributes(&mut self, number: u16) -> Result<Option<Attributes>, Self::Fault>
        requires { Self.holds self.old }
        ensures left { Leaves Self.holds Self.follows Self.is_told Self.shows self.old self.new }
        ensures found { IsTrue Self.is_told → IfOk result (λ a. a ≡ option_map attributes_of (seen_node (Self.shows self.old) number)) }
        ensures cause { IfErr result (λ f. Self.causes self.old self.new f) };

    /// The bytes of a node from an offset on: so many, or as many as there are before its end, and none of a directory or
    /// of a number without a node. It is `Memory` where there is none for the answer, and `View` where the tree finds a
    /// fault.
    fn read(
        &mut self,
        alloc: Global,
        number: u16,
        offset: u64,
        most: usize,
    ) -> Result<Vec<u8>, FileFault<Self::Fault>>
        requires { Self.holds self.old }
        ensures left { Leaves Self.holds Self.follows Self.is_told Self.shows self.old self.new }
        ensures found { IsTrue Self.is_told → IfOk result (λ read. read.items ≡ take most (drop offset (bytes_of (map.get (Self.shows self.old).nodes number)))) }
        ensures ends { IfOk result (λ read. offset + length read.items < 2 ^ 64) }
        ensures cause { IfLookUp result (λ f. Self.causes self.old self.new f) };

    /// The names of a directory in the order of their bytes, each with its number: none where the number isn't a
    /// directory's. It is `Memory` where there is none for the answer, and `View` where the tree finds a fault.
    fn names(
        &mut self,
        alloc: Global,
        directory: u16,
    ) -> Result<Vec<(Link, u16)>, FileFault<Self::Fault>>
        requires { Self.holds self.old }
        ensures left { Leaves Self.holds Self.follows Self.is_told Self.shows self.old self.new }
        ensures found { IsTrue Self.is_told → IfOk result (λ names. names.items ≡ links_of (Self.shows self.old) directory) }
        ensures cause { IfLookUp result (λ f. Self.causes self.old self.new f) };
}
