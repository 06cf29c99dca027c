//! Formatted devices in memory.

use anyhow::{Result, bail};
use sn_device::{Fill, MemDevice};
use sn_mkfs::mkfs;
use std::alloc::Global;

/// The blocks of a disk whose log is full before its blocks are.
const BLOCKS: u32 = 4_096;

/// And of the least one.
const LEAST_BLOCKS: u32 = 256;

/// A formatted device of so many blocks, whose counts begin anew. Too few blocks, and too little memory, are errors.
fn formatted(alloc: Global, blocks: u32) -> Result<MemDevice> {
    match mkfs(alloc, MemDevice::new(alloc, 8 * u64::from(blocks))?, blocks) {
        Ok(device) => Ok(device.crash(Fill::Old)),
        Err(_) => bail!("no disk where there is no fault"),
    }
}

/// A formatted device of 4,096 blocks, on which short changes fill the log before they fill the blocks. Too little memory is
/// an error.
pub fn new_device(alloc: Global) -> Result<MemDevice> {
    formatted(alloc, BLOCKS)
}

/// A formatted device of 256 blocks, the fewest that there may be. Too little memory is an error.
pub fn least_device(alloc: Global) -> Result<MemDevice> {
    formatted(alloc, LEAST_BLOCKS)
}
