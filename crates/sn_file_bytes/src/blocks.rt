ghost use Rattle.std.specs.Prelude.{◌≡◌, ◌≢◌, ℕ, ◌+◌, ◌/◌, ◌%◌, ◌≤◌, ◌<◌, ◌^◌, ◌&&◌, ◌==◌, ◌++◌, ◌-◌, ◌*◌, true, length, nat_lt, nat_le, OnOk, if◌then◌else◌};

use crate::block::{self, BLOCK_BYTES, ZEROS};
use sn_limits::Block;
use std::alloc::{AllocError, Global};
use std::collections::BTreeMap;

/// Blocks by their index. One that isn't there is a hole.
#[derive(Drop)]
pub(crate) struct Blocks {
    pub map: BTreeMap<u64, Box<Block>>,
}

impl Blocks {
    ghost use Rattle.sn_file_bytes.specs.Blocks.{cut_at, over, values_from};
    ghost use Rattle.sn_file_bytes.specs.Bytes.{byte_of, has_block};

    /// Zeros everywhere. It takes no memory.
    pub fn new(alloc: Global) -> Blocks
        ensures { (k : ℕ) → byte_of result k ≡ 0 }
    {
        Blocks {
            map: BTreeMap::new(alloc),
        }
    }

    /// Puts a block of zeros where there is a hole.
    fn fill_one(&mut self, alloc: Global, index: u64) -> Result<(), AllocError>
        ensures same { (k : ℕ) → byte_of self.new k ≡ byte_of self.old k }
        ensures there { OnOk result (has_block self.new index ≡ true) }
        ensures others { (i : ℕ) → i ≢ index → has_block self.new i ≡ has_block self.old i }
        ensures kept { (i : ℕ) → has_block self.old i ≡ true → has_block self.new i ≡ true }
    {
        if self.map.contains_key(&index) {
            return Ok(());
        }
        self.map.insert(index, Box::new(alloc, ZEROS)?)?;
        Ok(())
    }

    /// Puts blocks of zeros into all holes from one index up to another. What was filled stays so
    /// where memory is refused; nobody sees it.
    pub fn fill(&mut self, alloc: Global, first: u64, end: u64) -> Result<(), AllocError>
        ensures same { (k : ℕ) → byte_of self.new k ≡ byte_of self.old k }
        ensures there { OnOk result ((i : ℕ) → first ≤ i → i < end → has_block self.new i ≡ true) }
        ensures below { (i : ℕ) → i < first → has_block self.new i ≡ has_block self.old i }
    {
        for index in first..end {
            self.fill_one(alloc, index)?;
        }
        Ok(())
    }

    /// Puts bytes into one block, which is there.
    fn put_piece(&mut self, at: u64, piece: &[u8])
        requires within { at % 4096 + length piece.now ≤ 4096 }
        requires there { has_block self.old (at / 4096) ≡ true }
        ensures bytes { (k : ℕ) → byte_of self.new k ≡ over (byte_of self.old) at piece.now k }
        ensures kept { (i : ℕ) → has_block self.old i ≡ true → has_block self.new i ≡ true }
    {
        if let Some(block) = self.map.get_mut(&(at / BLOCK_BYTES)) {
            block::put(block, (at % BLOCK_BYTES) as usize, piece);
        }
    }

    /// Puts zeros into one block, from an offset on.
    fn clear_piece(&mut self, at: u64)
        ensures { (k : ℕ) → byte_of self.new k ≡ (if k / 4096 == at / 4096 && nat_le (at % 4096) (k % 4096) then 0 else byte_of self.old k) }
    {
        if let Some(block) = self.map.get_mut(&(at / BLOCK_BYTES)) {
            block::clear_from(block, (at % BLOCK_BYTES) as usize);
        }
    }

    /// Takes the blocks from an index on away.
    fn drop_from(&mut self, index: u64)
        ensures { (k : ℕ) → byte_of self.new k ≡ (if nat_lt (k / 4096) index then byte_of self.old k else 0) }
    {
        self.map.retain(|at, _| *at < index);
    }

    /// Leaves zeros from an offset on. It passes over all blocks, and takes no memory.
    pub fn cut(&mut self, size: u64)
        ensures { (k : ℕ) → byte_of self.new k ≡ cut_at (byte_of self.old) size k }
    {
        self.drop_from(size.div_ceil(BLOCK_BYTES));
        self.clear_piece(size);
    }

    /// Puts bytes over those from an offset on. The blocks are there, so it takes no memory.
    pub fn put(&mut self, offset: u64, bytes: &[u8])
        requires end { offset + length bytes.now < 2 ^ 64 }
        requires there { (i : ℕ) → offset / 4096 ≤ i → i * 4096 < offset + length bytes.now → has_block self.old i ≡ true }
        ensures { (k : ℕ) → byte_of self.new k ≡ over (byte_of self.old) offset bytes.now k }
    {
        let mut done = 0;
        while done < bytes.len() {
            let at = offset + done as u64;
            let room = (BLOCK_BYTES - at % BLOCK_BYTES) as usize;
            let count = room.min(bytes.len() - done);
            self.put_piece(at, &bytes[done..done + count]);
            done += count;
        }
    }

    /// The bytes from an offset on, at most so many, up to the end of its block.
    fn piece(&self, at: u64, count: u64) -> &[u8]
        requires { 0 < count }
        ensures bytes { result.now ≡ values_from (byte_of self.now) at (length result.now) }
        ensures some { 0 < length result.now }
        ensures few { length result.now ≤ count }
    {
        let from = (at % BLOCK_BYTES) as usize;
        let room = count.min(BLOCK_BYTES - at % BLOCK_BYTES) as usize;
        match self.map.get(&(at / BLOCK_BYTES)) {
            Some(block) => &block[from..from + room],
            None => &ZEROS[from..from + room],
        }
    }

    /// Puts the bytes from an offset up to another behind those of a list.
    pub fn read(&self, offset: u64, end: u64, out: &mut Vec<u8>) -> Result<(), AllocError>
        requires { offset ≤ end }
        ensures { OnOk result (out.new.items ≡ out.old.items ++ values_from (byte_of self.now) offset (end - offset)) }
    {
        let mut at = offset;
        while at < end {
            let piece = self.piece(at, end - at);
            out.extend_from_slice(piece)?;
            at += piece.len() as u64;
        }
        Ok(())
    }
}
