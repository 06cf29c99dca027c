ghost use Rattle.std.specs.Prelude.{◌≡◌};
ghost use Rattle.sn_walk.specs.Objects as objects;

use crate::ROOT_NUMBER;
use sn_limits::SnapshotName;

/// Which tree a node is in.
#[derive(PartialEq, Eq, Drop)]
pub enum Home {
    /// The live tree.
    Live,
    /// The frozen tree of the snapshot with this name.
    Frozen(SnapshotName),
}

impl Home {
    /// A copy, which takes no memory.
    pub fn copy(&self) -> Home
        ensures { result ≡ self.now }
    {
        match self {
            Home::Live => Home::Live,
            Home::Frozen(name) => Home::Frozen(name.copy()),
        }
    }

    fn is_same(&self, other: &Home) -> bool
        ensures { result ≡ objects.is_same self.now other.now }
    {
        match (self, other) {
            (Home::Live, Home::Live) => true,
            (Home::Frozen(name), Home::Frozen(other)) => name.as_bytes() == other.as_bytes(),
            _ => false,
        }
    }
}

/// What a name can denote.
#[derive(PartialEq, Eq, Drop)]
pub enum Object {
    /// The node of a tree with this number.
    Node { home: Home, number: u16 },
    /// The directory of snapshots, which the live root has under the name `.snapshot`. Its names are
    /// those of the snapshots, and each denotes the root of a frozen tree. It is in none of the
    /// trees.
    Snapshots,
}

impl Object {
    /// The live root directory.
    pub fn root() -> Object
        ensures { result ≡ objects.root }
    {
        Object::Node {
            home: Home::Live,
            number: ROOT_NUMBER,
        }
    }

    /// A copy, which takes no memory.
    pub fn copy(&self) -> Object
        ensures { result ≡ self.now }
    {
        match self {
            Object::Node { home, number } => Object::Node {
                home: home.copy(),
                number: *number,
            },
            Object::Snapshots => Object::Snapshots,
        }
    }

    /// The number that a caller sees. That of the directory of snapshots is 1.
    pub fn number(&self) -> u16
        ensures { result ≡ objects.number_of self.now }
    {
        match self {
            Object::Node { number, .. } => *number,
            Object::Snapshots => 1,
        }
    }

    /// Whether both are in one tree, where the directory of snapshots is a tree of its own.
    pub fn is_in_tree_of(&self, other: &Object) -> bool
        ensures { result ≡ objects.is_in_tree_of self.now other.now }
    {
        match (self, other) {
            (Object::Node { home, .. }, Object::Node { home: other, .. }) => home.is_same(other),
            (Object::Snapshots, Object::Snapshots) => true,
            _ => false,
        }
    }
}
