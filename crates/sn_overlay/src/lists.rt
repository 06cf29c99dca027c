//! Where the names of a directory and the blocks of a file are among those of all.
ghost use Rattle.std.specs.Prelude.{◌≡◌, ◌≤◌, IfOk, OnOk, OnErr, vec_len, vec_capacity};
ghost use Rattle.std.specs.FinMap.Entries.{where_key};
ghost use Rattle.sn_overlay.specs.Sorted.{IsSpan};

use crate::FileBlock;
use crate::sorted::SortedMap;
use sn_limits::Block;
use sn_model::Link;
use std::alloc::{AllocError, Global};
use std::ops::Range;

impl SortedMap<Link, Option<u16>> {
    ghost use Rattle.std.specs.Prelude.{◌==◌};
    ghost use Rattle.sn_model.specs.Tree.{link_cmp};

    // Where the names of a directory are.
    fn span_of(&self, directory: u16) -> Range<usize>
        ensures { IsSpan (λ link. link.directory) directory self.now.entries.items result.start result.end }
    {
        let start = self
            .entries
            .partition_point(|entry| entry.0.directory < directory);
        let end = self
            .entries
            .partition_point(|entry| entry.0.directory <= directory);
        start..end
    }

    /// The names of a directory.
    pub fn names_of(&self, directory: u16) -> &[(Link, Option<u16>)]
        ensures { result.now ≡ where_key link_cmp (λ link. link.directory == directory) self.now.entries.items }
    {
        let span = self.span_of(directory);
        &self.entries[span.start..span.end]
    }
}

impl SortedMap<FileBlock, Box<Block>> {
    ghost use Rattle.std.specs.Prelude.{◌==◌, not};
    ghost use Rattle.sn_overlay.specs.Keys.{file_block_cmp};

    // Where the blocks of a file are.
    fn span_of(&self, file: u16) -> Range<usize>
        ensures { IsSpan (λ file_block. file_block.file) file self.now.entries.items result.start result.end }
    {
        let start = self.entries.partition_point(|entry| entry.0.file < file);
        let end = self.entries.partition_point(|entry| entry.0.file <= file);
        start..end
    }

    /// Moves the blocks of a file out. Where memory is refused, all stay.
    pub fn take_blocks(
        &mut self,
        alloc: Global,
        file: u16,
    ) -> Result<Vec<(FileBlock, Box<Block>)>, AllocError>
        ensures taken { IfOk result (λ taken. taken.items ≡ where_key file_block_cmp (λ file_block. file_block.file == file) self.old.entries.items) }
        ensures left { OnOk result (self.new.entries.items ≡ where_key file_block_cmp (λ file_block. not (file_block.file == file)) self.old.entries.items) }
        ensures same { OnErr result (self.new.entries.items ≡ self.old.entries.items) }
        ensures len { vec_len self.new.entries ≤ vec_len self.old.entries }
        ensures kept { vec_capacity self.new.entries ≡ vec_capacity self.old.entries }
    {
        let span = self.span_of(file);
        let mut taken = Vec::with_capacity(alloc, span.end - span.start)?;
        for entry in self.entries.drain(span.start..span.end) {
            taken.push_reserved(entry);
        }
        Ok(taken)
    }
}
