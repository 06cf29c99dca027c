//! Times that were read.
ghost use Rattle.std.specs.Prelude.{◌≡◌};

use sn_times::TreeTimes;
use std::marker::Model;

/// The times of a tree's objects, under the name of the tree.
#[derive(Drop)]
pub struct Section {
    pub(crate) name: Vec<u8>,
    pub(crate) tree: TreeTimes,
}

impl Model for Section {
    ghost use Rattle.std.specs.Coded.{codes};
    ghost use Rattle.std.specs.FinMap as map;
    ghost use Rattle.sn_times_file.specs.Kept.{Named};

    ghost Value = { Named };

    ghost coded = { Prim.hlevel (codes, map.code) };

    ghost view = { λ s. record { name = s.name.items; tree = s.tree } };
}

impl Section {
    /// The name of the tree.
    pub fn name(&self) -> &[u8]
        ensures { result.now ≡ self.now.name }
    {
        self.name.as_slice()
    }

    /// The times.
    pub fn into_tree(self) -> TreeTimes
        ensures { result ≡ self.tree }
    {
        self.tree
    }
}

/// Times that were read: the root with which they count, and the sections.
#[derive(Drop)]
pub struct Saved {
    pub(crate) root: Vec<u8>,
    pub(crate) sections: Vec<Section>,
}

impl Model for Saved {
    ghost use Rattle.std.specs.Coded.{codes};
    ghost use Rattle.std.specs.FinMap as map;
    ghost use Rattle.sn_times_file.specs.Kept.{Kept};

    ghost Value = { Kept };

    ghost coded = { Prim.hlevel (codes, map.code) };

    ghost view = { λ s. record { root = s.root.items; sections = s.sections.items } };
}

impl Saved {
    /// The root with which the times count.
    pub fn root(&self) -> &[u8]
        ensures { result.now ≡ self.now.root }
    {
        self.root.as_slice()
    }

    /// The times of trees, in the order in which they were written.
    pub fn into_sections(self) -> Vec<Section>
        ensures { result.items ≡ self.sections }
    {
        self.sections
    }
}
