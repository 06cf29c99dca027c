use crate::Home;
use sn_acl::Acl;
use sn_limits::{Kind, SnapshotName};

/// The number of a tree's root directory.
pub const ROOT_NUMBER: u16 = 2;

/// What is known of a node without its bytes or names.
#[derive(Drop)]
pub struct Attributes {
    pub kind: Kind,
    /// S_ISGID.
    pub set_gid: bool,
    /// S_ISVTX.
    pub sticky: bool,
    pub owner: u32,
    pub group: u32,
    /// The access ACL.
    pub acl: Acl,
    /// How many names a file has. A directory has 1.
    pub links: u16,
    /// The bytes of a file. A directory has 0.
    pub size: u64,
}

/// The live tree and the frozen ones as a walk sees them.
///
/// A look-up may find a fault of the view's own kind, as a device or memory that failed, and then
/// says nothing. No look-up changes what the trees show. A view over a device that doesn't tell its
/// bytes isn't told, and then promises no answer.
pub trait TreeView {
    ghost use Rattle.std.specs.Prelude.{◌≡◌, Bool, IsTrue, IfOk, IfErr, List, [], ◌∷◌, ◌++◌};
    ghost use Rattle.sn_walk.specs.LookUps.{LookUp, OfDefaultAcl, OfLink, OfNode, OfSnapshot};
    ghost use Rattle.sn_walk.specs.Views.{ViewedTrees};
    ghost use Rattle.sn_walk.specs.Frame.{Leaves};

    type Fault: Drop;

    // whether look-ups are told at all
    ghost is_told: { Bool };

    ghost shows: { Self → ViewedTrees };

    // what a look-up needs and keeps
    ghost holds: { Self → Type 0 };

    // what look-ups may do: whether a view may be a later one of an earlier
    ghost follows: { Self → Self → Type 0 };

    // which look-ups were made, in their order, between an earlier view and a later one
    ghost looked_up: { List LookUp → Self → Self → Type 0 };

    // whether what happened between an earlier view and a later one is the cause of a fault
    ghost causes: { Self → Self → Self.Fault → Type 0 };

    /// The attributes of the node of a tree with this number.
    fn node(&mut self, home: &Home, number: u16) -> Result<Option<Attributes>, Self::Fault>
        requires { holds self.old }
        ensures left { Leaves holds follows is_told shows self.old self.new }
        ensures looked_up { looked_up (OfNode home.now number ∷ []) self.old self.new }
        ensures found { IsTrue is_told → IfOk result (λ a. a ≡ ((shows self.old).tree home.now).node number) }
        ensures cause { IfErr result (λ f. causes self.old self.new f) };

    /// The number that a name has in a directory of a tree.
    fn link(&mut self, home: &Home, directory: u16, name: &[u8]) -> Result<Option<u16>, Self::Fault>
        requires { holds self.old }
        ensures left { Leaves holds follows is_told shows self.old self.new }
        ensures looked_up { looked_up (OfLink home.now directory name.now ∷ []) self.old self.new }
        ensures found { IsTrue is_told → IfOk result (λ n. n ≡ ((shows self.old).tree home.now).link directory name.now) }
        ensures cause { IfErr result (λ f. causes self.old self.new f) };

    /// The default ACL of a directory of a tree.
    fn default_acl(&mut self, home: &Home, number: u16) -> Result<Option<Acl>, Self::Fault>
        requires { holds self.old }
        ensures left { Leaves holds follows is_told shows self.old self.new }
        ensures looked_up { looked_up (OfDefaultAcl home.now number ∷ []) self.old self.new }
        ensures found { IsTrue is_told → IfOk result (λ a. a ≡ ((shows self.old).tree home.now).default_acl number) }
        ensures cause { IfErr result (λ f. causes self.old self.new f) };

    /// Whether there is a snapshot with this name.
    fn has_snapshot(&mut self, name: &SnapshotName) -> Result<bool, Self::Fault>
        requires { holds self.old }
        ensures left { Leaves holds follows is_told shows self.old self.new }
        ensures looked_up { looked_up (OfSnapshot name.now ∷ []) self.old self.new }
        ensures found { IsTrue is_told → IfOk result (λ b. b ≡ (shows self.old).has_snapshot name.now) }
        ensures cause { IfErr result (λ f. causes self.old self.new f) };

    ghost follows_itself: { (v : Self) → follows v v };

    ghost follows_on: { (u v w : Self) → follows u v → follows v w → follows u w };

    ghost looked_up_none: { (v : Self) → looked_up [] v v };

    ghost looked_up_more: { (looks more : List LookUp) (u v w : Self) → looked_up looks u v → looked_up more v w → looked_up (looks ++ more) u w };

    ghost causes_later: { (u v w : Self) (f : Self.Fault) → follows u v → causes v w f → causes u w f };
}
