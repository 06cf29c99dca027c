ghost use Rattle.std.specs.Prelude.{◌≡◌, ◌≤◌, ◌+◌, ◌<◌, ◌^◌, true, Some, is_some, nat_lt, IsTrue, IfSome, if◌then◌else◌};
ghost use Rattle.std.specs.FinMap as map;
ghost use Rattle.sn_limits.specs.declared.limits.Limits.{Limits};
ghost use Rattle.sn_model.specs.Changes.{file_at, linked, removed, take_link, take_node};
ghost use Rattle.sn_model.specs.NameTree.{IsTree};
ghost use Rattle.sn_model.specs.Settling.{is_nameless};
ghost use Rattle.sn_model.specs.Tree.{names_in, names_for};

use crate::fault::ApplyError;
use crate::tree::PlainTree;
use sn_limits::Limits;
use sn_model::Link;
use sn_nodes::is_directory;

/// The first number that may be unused, once a number is unused.
pub(crate) fn after_loss(first: u32, number: u16) -> u32
    ensures { result ≡ (if nat_lt number first then number else first) }
{
    if u32::from(number) < first {
        u32::from(number)
    } else {
        first
    }
}

impl PlainTree {
    ghost use Rattle.sn_plain.specs.Plain.{tree_of, Applies};

    pub(crate) fn is_file(&self, number: u16) -> bool
        ensures { result ≡ is_some (file_at (tree_of self.now) number) }
    {
        self.nodes.is_file(number)
    }

    #[tactic(auto, unfolding(sn_model::specs::Changes::linked))]
    fn can_link(&self, limits: &Limits, link: &Link, number: u16) -> bool
        ensures exact { result ≡ is_some (linked limits.now (tree_of self.now) link.now number) }
        ensures names { IsTrue result → names_in (tree_of self.now) link.now.directory + 1 < 2 ^ 64 }
        ensures links { IsTrue result → names_for (tree_of self.now) number + 1 < 2 ^ 16 }
    {
        self.is_file(number) && self.is_vacant(link) && self.has_room_for(limits, link, number)
    }

    /// Gives a file one more name.
    pub fn add_link(&mut self, limits: &Limits, link: Link, number: u16) -> Result<(), ApplyError>
        ensures { Applies result (linked limits.now (tree_of self.old) link number) (tree_of self.old) (tree_of self.new) }
    {
        if !self.can_link(limits, &link, number) {
            return Err(ApplyError::CannotApply);
        }
        let directory = link.directory;
        match self.links.insert(link, number) {
            Ok(()) => {
                self.nodes.count_link(directory, number);
                Ok(())
            }
            Err(_) => Err(ApplyError::Memory),
        }
    }

    /// The number of a name that can be taken away: that of a file, or of an empty directory.
    #[tactic(auto, unfolding(sn_model::specs::Changes::removed))]
    fn removable(&self, link: &Link) -> Option<u16>
        ensures there { IfSome result (λ number. map.get (tree_of self.now).links link.now ≡ Some number) }
        ensures can { is_some result ≡ is_some (removed (tree_of self.now) link.now) }
    {
        let number = self.links.get(link)?;
        let node = self.nodes.get(number)?;
        if is_directory(node.kind) && node.counts.names > 0 {
            return None;
        }
        Some(number)
    }

    /// Takes a name away.
    pub(crate) fn take_name(&mut self, link: &Link, number: u16)
        requires { map.get (tree_of self.old).links link.now ≡ Some number }
        ensures { tree_of self.new ≡ take_link (tree_of self.old) link.now }
    {
        self.links.remove(link);
        self.nodes.uncount_link(link.directory, number);
    }

    /// Takes a node away that no name stands for, and that has none.
    pub(crate) fn take_node(&mut self, number: u16)
        requires number { 2 ≤ number }
        requires names { names_in (tree_of self.old) number ≡ 0 }
        requires links { names_for (tree_of self.old) number ≡ 0 }
        ensures { tree_of self.new ≡ take_node (tree_of self.old) number }
    {
        self.nodes.remove(number);
        self.first = after_loss(self.first, number);
    }

    /// Takes a name away that can be, and a directory with it.
    fn take(&mut self, link: &Link, number: u16)
        requires whole { (l : Limits) × IsTree l (tree_of self.old) }
        requires there { map.get (tree_of self.old).links link.now ≡ Some number }
        requires can { is_some (removed (tree_of self.old) link.now) ≡ true }
        ensures { removed (tree_of self.old) link.now ≡ Some (tree_of self.new) }
    {
        let is_file = self.is_file(number);
        self.take_name(link, number);
        if !is_file {
            self.take_node(number);
        }
    }

    /// Takes a name away, and an empty directory with it. A file stays, with or without other names.
    pub fn remove(&mut self, link: &Link) -> Result<(), ApplyError>
        requires { (l : Limits) × IsTree l (tree_of self.old) }
        ensures { Applies result (removed (tree_of self.old) link.now) (tree_of self.old) (tree_of self.new) }
    {
        match self.removable(link) {
            Some(number) => {
                self.take(link, number);
                Ok(())
            }
            None => Err(ApplyError::CannotApply),
        }
    }

    /// Whether a number is that of a file that no name stands for.
    pub fn is_nameless(&self, number: u16) -> bool
        ensures { result ≡ is_nameless (tree_of self.now) number (map.get (tree_of self.now).nodes number) }
    {
        self.is_file(number) && self.names_for(number) == 0
    }

    /// Takes a file away that no name stands for. It takes no memory.
    ///
    /// Proved, also of `settle`: A file without names is taken away, one or all, without memory.
    pub fn drop_file(&mut self, number: u16)
        requires number { 2 ≤ number }
        requires nameless { is_nameless (tree_of self.old) number (map.get (tree_of self.old).nodes number) ≡ true }
        ensures { tree_of self.new ≡ take_node (tree_of self.old) number }
    {
        self.take_node(number);
    }
}
