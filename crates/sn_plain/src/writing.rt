ghost use Rattle.std.specs.Prelude.{◌≡◌, ◌+◌, ◌<◌, ◌≤◌, ◌^◌, ◌&&◌, length, is_some, nat_lt, nat_le, IsTrue};
ghost use Rattle.sn_model.specs.Changes.{cut, written};

use crate::fault::ApplyError;
use crate::tree::PlainTree;
use sn_limits::Limits;
use std::alloc::Global;

/// Whether there are bytes, and they end within the largest file.
fn fits(limits: &Limits, offset: u64, bytes: &[u8]) -> bool
    ensures exact { result ≡ (nat_lt 0 (length bytes.now) && nat_le (offset + length bytes.now) limits.now.largest_file) }
    ensures end { IsTrue result → offset + length bytes.now < 2 ^ 64 }
{
    let size = bytes.len() as u64;
    size > 0 && size <= limits.largest_file && offset <= limits.largest_file - size
}

impl PlainTree {
    ghost use Rattle.sn_plain.specs.Plain.{tree_of, Applies};

    fn can_write(&self, limits: &Limits, number: u16, offset: u64, bytes: &[u8]) -> bool
        ensures exact { result ≡ is_some (written limits.now (tree_of self.now) number offset bytes.now) }
        ensures end { IsTrue result → offset + length bytes.now < 2 ^ 64 }
    {
        self.is_file(number) && fits(limits, offset, bytes)
    }

    /// Puts bytes over those of a file, from an offset on. There is at least one; what lies between
    /// the file's end and the offset is zeros.
    pub fn write(
        &mut self,
        alloc: Global,
        limits: &Limits,
        number: u16,
        offset: u64,
        bytes: &[u8],
    ) -> Result<(), ApplyError>
        ensures { Applies result (written limits.now (tree_of self.old) number offset bytes.now) (tree_of self.old) (tree_of self.new) }
    {
        if !self.can_write(limits, number, offset, bytes) {
            return Err(ApplyError::CannotApply);
        }
        self.nodes.write(alloc, number, offset, bytes)?;
        Ok(())
    }

    fn can_cut(&self, limits: &Limits, number: u16, size: u64) -> bool
        ensures { result ≡ is_some (cut limits.now (tree_of self.now) number size) }
    {
        self.is_file(number) && size <= limits.largest_file
    }

    /// Cuts a file off, or puts zeros behind its end. It takes no memory.
    pub fn set_size(&mut self, limits: &Limits, number: u16, size: u64) -> Result<(), ApplyError>
        ensures { Applies result (cut limits.now (tree_of self.old) number size) (tree_of self.old) (tree_of self.new) }
    {
        if !self.can_cut(limits, number, size) {
            return Err(ApplyError::CannotApply);
        }
        self.nodes.set_size(number, size);
        Ok(())
    }
}
