use sn_acl::Acl;
use sn_core_decide_rules::FileFault;
use sn_limits::SnapshotName;
use sn_model::Names;
use sn_overlay::Below;
use sn_walk::Attributes;
use std::alloc::{AllocError, Global};

/// A tree below an overlay with the frozen trees of snapshots beside it.
///
/// Which snapshots there are is known without a look-up. Each answer of a look-up is that of the frozen tree with this
/// name, and nothing where no snapshot has it. A fault is one of the tree.
///
/// Proved: Through an overlay the frozen trees are seen as they are below: which snapshots there are, their names in the
/// order of their bytes, and of each tree the nodes, names, default ACLs, bytes and listings, and how many files have no
/// name.
/// Proved: No look-up changes the frozen trees or the live one, and its faults are a lack of memory for the answer and the
/// tree's own.
pub trait HasSnapshots: Below {
    ghost use Rattle.std.specs.Prelude.{◌≡◌, ◌+◌, ◌<◌, ◌^◌, IsTrue, IfOk, IfErr, drop, length, take};
    ghost use Rattle.std.specs.FinMap as map;
    ghost use Rattle.sn_core_decide_rules.specs.Faults.{IfLookUp};
    ghost use Rattle.sn_live_files.specs.Frozen.{FrozenTrees, bytes_at, seen_at};
    ghost use Rattle.sn_model.specs.Seen.{names_if};
    ghost use Rattle.sn_model.specs.Settling.{nameless_if};
    ghost use Rattle.sn_walk.specs.Frame.{Leaves};

    // the trees of the snapshots, by their names
    ghost frozen: { Self → FrozenTrees };

    // what a look-up in one of them needs besides what any needs
    ghost holds_frozen: { Self → Type 0 };

    /// Whether there is a snapshot with this name, also where the tree isn't told.
    fn has_snapshot(&self, name: &SnapshotName) -> bool
        ensures { result ≡ map.contains_key (frozen self.now) name.now };

    /// The names of all snapshots, in the order of their bytes.
    fn snapshots(&self, alloc: Global) -> Result<Names, AllocError>
        ensures { IsTrue Self.is_told → IfOk result (λ names. names ≡ map.keys (frozen self.now)) };

    /// The attributes of the node that a number has in a frozen tree.
    fn frozen_node(
        &mut self,
        snapshot: &SnapshotName,
        number: u16,
    ) -> Result<Option<Attributes>, Self::Fault>
        requires holds { Self.holds self.old }
        requires frozen { holds_frozen self.old }
        ensures left { Leaves Self.holds Self.follows Self.is_told Self.shows self.old self.new }
        ensures found { IsTrue Self.is_told → IfOk result (λ a. a ≡ (seen_at (frozen self.old) snapshot.now).node number) }
        ensures cause { IfErr result (λ f. Self.causes self.old self.new f) };

    /// The number that a name has in a directory of a frozen tree.
    fn frozen_link(
        &mut self,
        snapshot: &SnapshotName,
        directory: u16,
        name: &[u8],
    ) -> Result<Option<u16>, Self::Fault>
        requires holds { Self.holds self.old }
        requires frozen { holds_frozen self.old }
        ensures left { Leaves Self.holds Self.follows Self.is_told Self.shows self.old self.new }
        ensures found { IsTrue Self.is_told → IfOk result (λ n. n ≡ (seen_at (frozen self.old) snapshot.now).link directory name.now) }
        ensures cause { IfErr result (λ f. Self.causes self.old self.new f) };

    /// The default ACL of a directory of a frozen tree.
    fn frozen_default_acl(
        &mut self,
        snapshot: &SnapshotName,
        number: u16,
    ) -> Result<Option<Acl>, Self::Fault>
        requires holds { Self.holds self.old }
        requires frozen { holds_frozen self.old }
        ensures left { Leaves Self.holds Self.follows Self.is_told Self.shows self.old self.new }
        ensures found { IsTrue Self.is_told → IfOk result (λ a. a ≡ (seen_at (frozen self.old) snapshot.now).default_acl number) }
        ensures cause { IfErr result (λ f. Self.causes self.old self.new f) };

    /// How many bytes a node of a frozen tree has: none of a directory, or of a number without a node.
    fn frozen_size(&mut self, snapshot: &SnapshotName, number: u16) -> Result<u64, Self::Fault>
        requires holds { Self.holds self.old }
        requires frozen { holds_frozen self.old }
        ensures left { Leaves Self.holds Self.follows Self.is_told Self.shows self.old self.new }
        ensures found { IsTrue Self.is_told → IfOk result (λ size. size ≡ length (bytes_at (frozen self.old) snapshot.now number)) }
        ensures cause { IfErr result (λ f. Self.causes self.old self.new f) };

    /// The bytes of a node of a frozen tree from an offset on: so many, or as many as there are before its end. It is
    /// `Memory` where there is none for the answer, and `View` where the tree finds a fault.
    fn frozen_read(
        &mut self,
        alloc: Global,
        snapshot: &SnapshotName,
        number: u16,
        offset: u64,
        most: usize,
    ) -> Result<Vec<u8>, FileFault<Self::Fault>>
        requires holds { Self.holds self.old }
        requires frozen { holds_frozen self.old }
        ensures left { Leaves Self.holds Self.follows Self.is_told Self.shows self.old self.new }
        ensures found { IsTrue Self.is_told → IfOk result (λ read. read.items ≡ take most (drop offset (bytes_at (frozen self.old) snapshot.now number))) }
        ensures ends { IfOk result (λ read. offset + length read.items < 2 ^ 64) }
        ensures cause { IfLookUp result (λ f. Self.causes self.old self.new f) };

    /// The names of a directory of a frozen tree, in the order of their bytes. It is `Memory` where there is none for the
    /// answer, and `View` where the tree finds a fault.
    fn frozen_names(
        &mut self,
        alloc: Global,
        snapshot: &SnapshotName,
        directory: u16,
    ) -> Result<Names, FileFault<Self::Fault>>
        requires holds { Self.holds self.old }
        requires frozen { holds_frozen self.old }
        ensures left { Leaves Self.holds Self.follows Self.is_told Self.shows self.old self.new }
        ensures found { IsTrue Self.is_told → IfOk result (λ names. names ≡ names_if (map.get (frozen self.old) snapshot.now) directory) }
        ensures cause { IfLookUp result (λ f. Self.causes self.old self.new f) };

    /// How many files of a frozen tree have no name.
    fn frozen_nameless(&mut self, snapshot: &SnapshotName) -> Result<u32, Self::Fault>
        requires holds { Self.holds self.old }
        requires frozen { holds_frozen self.old }
        ensures left { Leaves Self.holds Self.follows Self.is_told Self.shows self.old self.new }
        ensures found { IsTrue Self.is_told → IfOk result (λ count. count ≡ nameless_if (map.get (frozen self.old) snapshot.now)) }
        ensures cause { IfErr result (λ f. Self.causes self.old self.new f) };

    // look-ups leave the frozen trees, and what is needed for the next
    ghost frozen_stay: { (u v : Self) → IsTrue Self.is_told → Self.follows u v → frozen v ≡ frozen u };

    ghost frozen_hold: { (u v : Self) → Self.follows u v → holds_frozen u → holds_frozen v };
}
