ghost use Rattle.std.specs.Prelude.{◌≡◌, ◌-◌, ◌+◌, ◌<◌, ◌^◌, false, is_some, IsTrue, Some};
ghost use Rattle.std.specs.FinMap as map;
ghost use Rattle.sn_limits.specs.declared.limits.Limits.{Limits};
ghost use Rattle.sn_limits.specs.declared.kind.Kind.TheVariants.{Directory};
ghost use Rattle.sn_model.specs.Changes.{directory_at, is_at_or_below, is_new_name, moved, renamed, replaced, same_number};
ghost use Rattle.sn_model.specs.NameTree.{HasKind, IsHierarchy, IsTree};
ghost use Rattle.sn_model.specs.Seen.{is_below};
ghost use Rattle.sn_model.specs.Tree.{Node, names_in, names_for};

use crate::fault::ApplyError;
use crate::moving::{clear, move_link};
use crate::tests::is_hidden_name;
use crate::tree::PlainTree;
use sn_limits::{Kind, Limits, is_name};
use sn_model::Link;
use sn_nodes::is_directory;

impl PlainTree {
    ghost use Rattle.sn_plain.specs.Plain.{tree_of, Applies};
    ghost use Rattle.sn_plain.specs.Moves.{has_room_left, names_left};

    fn is_directory_at(&self, number: u16) -> bool
        ensures { result ≡ is_some (directory_at (tree_of self.now) number) }
    {
        match self.nodes.get(number) {
            Some(node) => is_directory(node.kind),
            None => false,
        }
    }

    /// Whether a directory is another one, or is below it. It goes up by the directories that they
    /// are in.
    fn is_at_or_below(&self, top: u16, directory: u16) -> bool
        requires whole { ∥ IsHierarchy (tree_of self.now) ∥₁ }
        requires directory { HasKind (tree_of self.now) directory Directory }
        ensures { result ≡ is_at_or_below (tree_of self.now) top directory }
    {
        let mut current = directory;
        while current != top {
            let counts = self.nodes.counts(current);
            if counts.links == 0 {
                return false;
            }
            current = counts.parent;
        }
        true
    }

    /// Whether a number is a directory's, which is another one or is below it.
    pub fn is_below(&self, top: u16, directory: u16) -> bool
        requires { ∥ IsHierarchy (tree_of self.now) ∥₁ }
        ensures { result ≡ is_below (tree_of self.now) top directory }
    {
        self.is_directory_at(directory) && self.is_at_or_below(top, directory)
    }

    /// Whether it is a name that what is moved can get: no directory comes to lie in itself.
    fn is_new_name(&self, new: &Link, number: u16, kind: Kind) -> bool
        requires whole { (l : Limits) × IsTree l (tree_of self.now) }
        requires directory { HasKind (tree_of self.now) new.now.directory Directory }
        ensures { (node : Node) → node.kind ≡ kind → result ≡ is_new_name (tree_of self.now) new.now number node }
    {
        let name = new.name.as_bytes();
        is_name(name)
            && !is_hidden_name(new.directory, name)
            && !(is_directory(kind) && self.is_at_or_below(number, new.directory))
    }

    /// Whether what has the new name can go: a file for a file, an empty directory for a directory.
    fn can_replace(&self, kind: Kind, target: Option<u16>) -> bool
        ensures { (new : Link) (node : Node) → node.kind ≡ kind → result ≡ is_some (replaced (tree_of self.now) new node target) }
    {
        let Some(number) = target else {
            return true;
        };
        match self.nodes.get(number) {
            Some(node) => node.kind == kind && (!is_directory(kind) || node.counts.names == 0),
            None => false,
        }
    }

    /// Whether the new directory has a place for the name, and the number may have it, once the old
    /// name is gone and what had the new one.
    fn has_room_left(
        &self,
        limits: &Limits,
        old: &Link,
        new: &Link,
        number: u16,
        target: Option<u16>,
    ) -> bool
        ensures exact { result ≡ has_room_left limits.now (tree_of self.now) old.now new.now number target }
        ensures names { IsTrue result → names_left (tree_of self.now) old.now new.now target + 1 < 2 ^ 64 }
        ensures links { IsTrue result → names_for (tree_of self.now) number - 1 + 1 < 2 ^ 16 }
    {
        let leaving = u64::from(target.is_some()) + u64::from(old.directory == new.directory);
        let names = self.names_in(new.directory).saturating_sub(leaving);
        let links = self.names_for(number).saturating_sub(1);
        names < u64::from(limits.names) && links < limits.links
    }

    fn can_move(
        &self,
        limits: &Limits,
        old: &Link,
        new: &Link,
        number: u16,
        target: Option<u16>,
    ) -> bool
        requires whole { (l : Limits) × IsTree l (tree_of self.now) }
        requires old { map.get (tree_of self.now).links old.now ≡ Some number }
        requires new { map.get (tree_of self.now).links new.now ≡ target }
        requires apart { same_number number target ≡ false }
        ensures names { IsTrue result → names_left (tree_of self.now) old.now new.now target + 1 < 2 ^ 64 }
        ensures links { IsTrue result → names_for (tree_of self.now) number - 1 + 1 < 2 ^ 16 }
        ensures exact { (node : Node) → map.get (tree_of self.now).nodes number ≡ Some node → result ≡ is_some (moved limits.now (tree_of self.now) old.now new.now number node) }
    {
        let Some(node) = self.nodes.get(number) else {
            return false;
        };
        if !self.is_directory_at(new.directory) {
            return false;
        }
        if !self.can_replace(node.kind, target) {
            return false;
        }
        if !self.is_new_name(new, number, node.kind) {
            return false;
        }
        self.has_room_left(limits, old, new, number, target)
    }

    /// Moves a name. What had the new name loses it, as by `remove`. Where both are names of one
    /// object, nothing changes.
    pub fn rename(&mut self, limits: &Limits, old: &Link, new: Link) -> Result<(), ApplyError>
        requires { (l : Limits) × IsTree l (tree_of self.old) }
        ensures { Applies result (renamed limits.now (tree_of self.old) old.now new) (tree_of self.old) (tree_of self.new) }
    {
        let Some(number) = self.links.get(old) else {
            return Err(ApplyError::CannotApply);
        };
        let target = self.links.get(&new);
        if target == Some(number) {
            return Ok(());
        }
        if !self.can_move(limits, old, &new, number, target) {
            return Err(ApplyError::CannotApply);
        }
        let directory = new.directory;
        self.links.insert(new, number)?;
        self.links.remove(old);
        self.first = clear(&mut self.nodes, self.first, directory, target);
        move_link(&mut self.nodes, old.directory, directory, number);
        Ok(())
    }
}
