//! Blocks that are in memory: those that are to be written, and those that changed.
use sn_layout::Block;

/// A block that is to be written where no root reaches.
#[derive(Drop)]
pub struct NewBlock {
    pub number: u32,
    pub bytes: Box<Block>,
}

/// The bytes that a data block of a file is to have.
#[derive(Drop)]
pub struct DirtyBlock {
    /// Which data block it is: byte k of the file is in block k / 4,096.
    pub index: u64,
    pub bytes: Box<Block>,
}
