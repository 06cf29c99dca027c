//! What calls ask of the trees: [`CallView`] besides what a walk asks, [`MoveView`] besides that where a name is moved, and
//! [`FileView`] besides that of files, listings and snapshots.

use crate::fault::FileFault;
use sn_limits::SnapshotName;
use sn_model::{Names, Refusal};
use sn_walk::{Failure, Home, Object, TreeView};
use std::alloc::Global;

/// What decisions ask of the trees besides what a walk asks.
pub trait CallView: TreeView {
    ghost use Rattle.std.specs.Prelude.{◌≡◌, ℕ, IsTrue, IfOk, IfErr, Result};
    ghost use Rattle.sn_walk.specs.Gives.{Gives, IfFault};
    ghost use Rattle.sn_model.specs.declared.reply.Refusal.{Refusal};
    ghost use Rattle.sn_model.specs.Seen.{SeenNames};
    ghost use Rattle.sn_walk.specs.Frame.{Leaves};

    // whether a directory of the live tree may get one more name, of a new node
    ghost room: { Self → ℕ → Result (Unit {0}) Refusal };

    // the names of the trees
    ghost names: { Self → SeenNames };

    /// Whether a directory of the live tree may get one more name, of a new node: a number is left,
    /// and the directory has room. Otherwise the refusal is ELIMIT.
    fn has_room(&mut self, directory: u16) -> Result<(), Failure<Refusal, Self::Fault>>
        requires { Self.holds self.old }
        ensures left { Leaves Self.holds Self.follows Self.is_told Self.shows self.old self.new }
        ensures found { IsTrue Self.is_told → Gives (λ u. u) result (room self.old directory) }
        ensures cause { IfFault result (λ f. Self.causes self.old self.new f) };

    /// Whether a directory of the live tree may get one more name, of a node that is there: ELIMIT
    /// where it has all the names that it can have.
    fn has_room_for_name(&mut self, directory: u16) -> Result<(), Failure<Refusal, Self::Fault>>
        requires { Self.holds self.old }
        ensures left { Leaves Self.holds Self.follows Self.is_told Self.shows self.old self.new }
        ensures found { IsTrue Self.is_told → Gives (λ u. u) result ((names self.old).room directory) }
        ensures cause { IfFault result (λ f. Self.causes self.old self.new f) };

    /// Whether a directory of the live tree has no names.
    fn is_empty(&mut self, directory: u16) -> Result<bool, Self::Fault>
        requires { Self.holds self.old }
        ensures left { Leaves Self.holds Self.follows Self.is_told Self.shows self.old self.new }
        ensures found { IsTrue Self.is_told → IfOk result (λ b. b ≡ (names self.old).is_empty directory) }
        ensures cause { IfErr result (λ f. Self.causes self.old self.new f) };

    // look-ups leave both
    ghost room_stays: { (u v : Self) → IsTrue Self.is_told → Self.follows u v → room v ≡ room u };

    ghost names_stay: { (u v : Self) → IsTrue Self.is_told → Self.follows u v → names v ≡ names u };
}

/// What a decision that moves names asks besides.
///
/// Proved: Whether a directory is below another is asked of the view.
pub trait MoveView: CallView {
    ghost use Rattle.std.specs.Prelude.{◌≡◌, IsTrue, IfOk, IfErr};
    ghost use Rattle.sn_walk.specs.Frame.{Leaves};

    /// Whether a directory of the live tree is another one, or is below it.
    fn is_below(&mut self, top: u16, directory: u16) -> Result<bool, Self::Fault>
        requires { Self.holds self.old }
        ensures left { Leaves Self.holds Self.follows Self.is_told Self.shows self.old self.new }
        ensures found { IsTrue Self.is_told → IfOk result (λ b. b ≡ (Self.names self.old).is_below top directory) }
        ensures cause { IfErr result (λ f. Self.causes self.old self.new f) };
}

/// What calls ask of the trees besides what decisions ask: which names are those of snapshots, the bytes of files, the names
/// that a directory is listed with, and how many files of a snapshot have none.
///
/// Proved: What calls ask of a tree besides what decisions ask: whether a snapshot has a name, which is known without a look-up,
/// how many bytes a file has, those from an offset on, the names that a directory is listed with, and how many files of a
/// snapshot have no name.
pub trait FileView: MoveView {
    ghost use Rattle.std.specs.Prelude.{◌≡◌, ℕ, ◌+◌, ◌<◌, ◌^◌, IsTrue, IfOk, IfErr, List, length, take, drop};
    ghost use Rattle.sn_walk.specs.declared.object.Home.{Home};
    ghost use Rattle.sn_core_decide_rules.specs.Faults.{IfLookUp};
    ghost use Rattle.sn_walk.specs.Frame.{Leaves};

    // the bytes of the nodes of the trees; what isn't there has none
    ghost bytes: { Self → Home → ℕ → List ℕ };

    /// Whether a snapshot has the name, which is known without a look-up.
    fn knows_snapshot(&self, name: &SnapshotName) -> bool
        ensures { IsTrue Self.is_told → result ≡ (Self.shows self.now).has_snapshot name.now };

    /// How many bytes a node of a tree has. What isn't there has none.
    fn size(&mut self, home: &Home, number: u16) -> Result<u64, Self::Fault>
        requires { Self.holds self.old }
        ensures left { Leaves Self.holds Self.follows Self.is_told Self.shows self.old self.new }
        ensures found { IsTrue Self.is_told → IfOk result (λ size. size ≡ length (bytes self.old home.now number)) }
        ensures cause { IfErr result (λ f. Self.causes self.old self.new f) };

    /// The bytes of a node of a tree from an offset on, at most so many: as many as there are.
    fn read(
        &mut self,
        alloc: Global,
        home: &Home,
        number: u16,
        offset: u64,
        most: usize,
    ) -> Result<Vec<u8>, FileFault<Self::Fault>>
        requires { Self.holds self.old }
        ensures left { Leaves Self.holds Self.follows Self.is_told Self.shows self.old self.new }
        ensures found { IsTrue Self.is_told → IfOk result (λ read. read.items ≡ take most (drop offset (bytes self.old home.now number))) }
        ensures ends { IfOk result (λ read. offset + length read.items < 2 ^ 64) }
        ensures cause { IfLookUp result (λ f. Self.causes self.old self.new f) };

    /// The names that a directory is listed with, in the order of their bytes.
    fn listed(&mut self, alloc: Global, object: &Object) -> Result<Names, FileFault<Self::Fault>>
        requires { Self.holds self.old }
        ensures left { Leaves Self.holds Self.follows Self.is_told Self.shows self.old self.new }
        ensures found { IsTrue Self.is_told → IfOk result (λ listed. listed ≡ (Self.names self.old).listed object.now) }
        ensures cause { IfLookUp result (λ f. Self.causes self.old self.new f) };

    /// How many files of a snapshot's tree have no name: none where there is no such snapshot.
    fn count_nameless(&mut self, snapshot: &SnapshotName) -> Result<u32, Self::Fault>
        requires { Self.holds self.old }
        ensures left { Leaves Self.holds Self.follows Self.is_told Self.shows self.old self.new }
        ensures found { IsTrue Self.is_told → IfOk result (λ count. count ≡ (Self.names self.old).nameless snapshot.now) }
        ensures cause { IfErr result (λ f. Self.causes self.old self.new f) };

    // look-ups leave the bytes
    ghost bytes_stay: { (u v : Self) → IsTrue Self.is_told → Self.follows u v → bytes v ≡ bytes u };
}
