ghost use Rattle.std.specs.Prelude.{◌≡◌, ◌+◌, ◌<◌, ◌^◌, [], length, take, drop, IfOk, OnOk, OnErr};
ghost use Rattle.sn_model.specs.Changes.{overwritten, resized};

use crate::block::BLOCK_BYTES;
use crate::blocks::Blocks;
use std::alloc::{AllocError, Global};
use std::marker::Model;

/// The bytes of a file, as a list.
#[derive(Drop)]
pub struct FileBytes {
    blocks: Blocks,
    size: u64,
}

impl Model for FileBytes {
    ghost use Rattle.std.specs.Prelude.{ℕ, List};

    ghost Value = { List ℕ };

    ghost use Rattle.sn_file_bytes.specs.Blocks.{bytes_of, IsZeroFrom};

    ghost view = { λ f. bytes_of f.blocks.map.entries f.size };

    // what is behind the end is zeros, so that a file grows without a write
    ghost invariant = { λ f. IsZeroFrom f.blocks.map.entries f.size };
}

impl FileBytes {
    /// No bytes. It takes no memory.
    pub fn new(alloc: Global) -> FileBytes
        ensures { result ≡ [] }
    {
        FileBytes {
            blocks: Blocks::new(alloc),
            size: 0,
        }
    }

    /// How many bytes the file has, holes counted.
    pub fn size(&self) -> u64
        ensures { result ≡ length self.now }
    {
        self.size
    }

    /// The bytes from an offset on, at most so many; none behind the end.
    ///
    /// Proved: The bytes of a file in memory, in blocks with holes, are a plain list, and a read gives the bytes from an
    /// offset on, as many as there are.
    pub fn read(&self, alloc: Global, offset: u64, count: usize) -> Result<Vec<u8>, AllocError>
        ensures { IfOk result (λ bytes. bytes.items ≡ take count (drop offset self.now)) }
    {
        if self.size <= offset {
            return Ok(Vec::new(alloc));
        }
        let left = (self.size - offset).min(count as u64);
        let mut bytes = Vec::with_capacity(alloc, left as usize)?;
        self.blocks.read(offset, offset + left, &mut bytes)?;
        Ok(bytes)
    }

    /// Puts bytes over those from an offset on. The list grows where they end behind its end, and is
    /// filled with zeros up to the offset where that is behind it.
    ///
    /// Proved: A write puts bytes over those from an offset on, with zeros up to it, and one that finds no memory leaves the
    /// list.
    pub fn write(&mut self, alloc: Global, offset: u64, bytes: &[u8]) -> Result<(), AllocError>
        requires { offset + length bytes.now < 2 ^ 64 }
        ensures ok { OnOk result (self.new ≡ overwritten self.old offset bytes.now) }
        ensures err { OnErr result (self.new ≡ self.old) }
    {
        let end = offset + bytes.len() as u64;
        self.blocks
            .fill(alloc, offset / BLOCK_BYTES, end.div_ceil(BLOCK_BYTES))?;
        self.blocks.put(offset, bytes);
        self.size = self.size.max(end);
        Ok(())
    }

    /// Cuts the list off, or puts zeros behind its end. It takes no memory.
    ///
    /// Proved: A new size cuts the list off or puts zeros after it.
    pub fn set_size(&mut self, size: u64)
        ensures { self.new ≡ resized self.old size }
    {
        if size < self.size {
            self.blocks.cut(size);
        }
        self.size = size;
    }
}
