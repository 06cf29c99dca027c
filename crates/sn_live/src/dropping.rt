//! Files without names that are dropped from a live tree.
ghost use Rattle.std.specs.Prelude.{◌≡◌, ◌≤◌, ℕ, ◌+◌, ◌==◌, ◌&&◌, ◌||◌, length, IfOk, OnErr, OnOk};
ghost use Rattle.sn_changed.specs.Dropped.{TellsGone, with_drops, without_each};
ghost use Rattle.sn_live.specs.Live.{HasDrops, IsLive, KeepsBack, ShowsAlike, ShowsNameless, changes_of, count_of, kept_back_of, kept_since_of, point_of, shown_of};
ghost use Rattle.sn_live.specs.Unnamed.{CanGo, DropsNameless, GoWithNames, listed_if};
ghost use Rattle.sn_model.specs.Changes.{take_node};
ghost use Rattle.sn_model.specs.Settling.{settled};
ghost use Rattle.sn_model.specs.Tree.{Tree};
ghost use Rattle.sn_number_table.specs.Nameless.{is_listed};
ghost use Rattle.sn_overlay.specs.Merges.{merge};
ghost use Rattle.sn_overlay.specs.Overlays.{gone, layer_of};

use crate::live::LiveTree;
use crate::nodes::note_drop;
use sn_changed::{DroppedFile, drop_each};
use sn_number_table::NamelessFiles;
use sn_overlay::Overlay;
use std::alloc::{AllocError, Global};

/// Puts a number after others, if it is that of a file without names.
fn list_if_nameless(
    without_names: &NamelessFiles,
    number: u16,
    files: &mut Vec<DroppedFile>,
) -> Result<(), AllocError>
    ensures { OnOk result (files.new.items ≡ listed_if (is_listed without_names.now) number files.old.items) }
{
    if !without_names.contains(number) {
        return Ok(());
    }
    files.push(DroppedFile {
        number,
        by_close: false,
    })?;
    Ok(())
}

impl LiveTree {
    /// Removes a file that has no name, where there is room for a drop. `by_close` says that it is dropped with its last
    /// descriptor, and then its number is kept back; that of one dropped with its last name can be given out at once. It
    /// takes no memory.
    ///
    /// Proved, also of `reserve_drops`: A file without names is dropped without memory, in the room that there was for it; its
    /// number is kept back exactly where it was dropped with its last descriptor.
    pub fn drop_file(&mut self, number: u16, by_close: bool)
        requires { HasDrops self.old 1 }
        ensures live { (below : Tree) → IsLive self.old below → ShowsNameless self.old below number → IsLive self.new below }
        ensures shown { (below : Tree) → IsLive self.old below → ShowsNameless self.old below number → shown_of self.new below ≡ take_node (shown_of self.old below) number }
        ensures point { point_of self.new ≡ point_of self.old }
        ensures changes { changes_of self.new ≡ merge (changes_of self.old) (gone number by_close) }
        ensures kept { (n : ℕ) → kept_back_of self.new n ≡ (by_close && n == number || kept_back_of self.old n) }
        ensures since { (n : ℕ) → kept_since_of self.new n ≡ (by_close && n == number || kept_since_of self.old n) }
        ensures drops { (drops : ℕ) → HasDrops self.old (drops + 1) → HasDrops self.new drops }
        ensures counted { count_of self.new ≤ count_of self.old }
    {
        self.top.drop_node(number, by_close);
        note_drop(&mut self.numbers, number, by_close);
        self.without_names.remove(number);
        self.nameless = self.nameless.saturating_sub(1);
    }

    /// The files that have no name, each once: those that are dropped once what is shown is settled. Where none is counted,
    /// no number is looked at. The error comes where memory is refused.
    ///
    /// Proved, also of `settled_changes` and `settle`: All files without names are listed, each once; they are dropped from a copy of
    /// what changed, or from what is shown, which then is the settled tree with no number kept back for it; only memory may
    /// be refused, and then nothing that is shown changed.
    pub fn nameless_files(&self, alloc: Global) -> Result<Vec<DroppedFile>, AllocError>
        ensures gone { (below : Tree) → IsLive self.now below → IfOk result (λ files. TellsGone (shown_of self.now below) (settled (shown_of self.now below)) files.items) }
        ensures named { IfOk result (λ files. GoWithNames files.items) }
    {
        let mut files = Vec::new(alloc);
        if self.nameless == 0 {
            return Ok(files);
        }
        for number in 0..65_536u32 {
            list_if_nameless(&self.without_names, number as u16, &mut files)?;
        }
        Ok(files)
    }

    /// A copy of what changed, without the files that have no name. The error comes where memory is refused.
    pub fn settled_changes(&self, alloc: Global) -> Result<Overlay, AllocError>
        ensures { (below : Tree) → IsLive self.now below → IfOk result (λ copy. DropsNameless (shown_of self.now below) (changes_of self.now) (layer_of copy)) }
    {
        let files = self.nameless_files(alloc)?;
        let mut changed = self.top.copy(alloc)?;
        let listed = files.as_slice();
        changed.reserve(listed.len(), 0, 0)?;
        drop_each(&mut changed, listed);
        Ok(changed)
    }

    /// Removes files that have no name, each once, where there is room for all. It takes no memory.
    fn drop_files(&mut self, files: &[DroppedFile])
        requires { HasDrops self.old (length files.now) }
        ensures live { (below : Tree) → IsLive self.old below → CanGo (shown_of self.old below) files.now → IsLive self.new below }
        ensures shown { (below : Tree) → IsLive self.old below → CanGo (shown_of self.old below) files.now → shown_of self.new below ≡ without_each (shown_of self.old below) files.now }
        ensures point { point_of self.new ≡ point_of self.old }
        ensures changes { changes_of self.new ≡ with_drops (changes_of self.old) files.now }
        ensures numbers { GoWithNames files.now → KeepsBack self.old self.new }
    {
        for file in files {
            self.drop_file(file.number, file.by_close);
        }
    }

    /// All files that have no name are dropped, and their numbers can be given out at once. Where memory is refused, nothing
    /// that is shown changes.
    pub fn settle(&mut self, alloc: Global) -> Result<(), AllocError>
        ensures live { OnOk result ((below : Tree) → IsLive self.old below → IsLive self.new below) }
        ensures shown { OnOk result ((below : Tree) → IsLive self.old below → shown_of self.new below ≡ settled (shown_of self.old below)) }
        ensures changed { OnOk result ((below : Tree) → IsLive self.old below → DropsNameless (shown_of self.old below) (changes_of self.old) (changes_of self.new)) }
        ensures point { point_of self.new ≡ point_of self.old }
        ensures numbers { KeepsBack self.old self.new }
        ensures alike { OnErr result (ShowsAlike self.old self.new) }
        ensures changes { OnErr result (changes_of self.new ≡ changes_of self.old) }
    {
        let files = self.nameless_files(alloc)?;
        let listed = files.as_slice();
        self.top.reserve(listed.len(), 0, 0)?;
        self.drop_files(listed);
        Ok(())
    }
}
