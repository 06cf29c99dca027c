//! Why a tree isn't read.
ghost use Rattle.std.specs.Prelude.{◌≡◌, Some};
ghost use Rattle.sn_block.specs.declared.fault.ReadFault.TheVariants.{Memory};
ghost use Rattle.sn_tree_read.specs.Fault.{text_of};
ghost use Rattle.sn_tree_read.specs.Paths.{block_named};
ghost use Rattle.sn_tree_read.specs.declared.fault.TreeFault.TheVariants.{Read, Damaged};

use sn_block::ReadFault;
use std::alloc::AllocError;
use std::error::Error;
use std::fmt;

/// Why a tree isn't read.
#[derive(Clone, Copy, Debug, PartialEq, Eq)]
pub enum TreeFault {
    /// A block isn't read, or there is no memory for the answer.
    Read(ReadFault),
    /// The image can't be read so: a pointer names a block that isn't on the device, or bytes spell
    /// nothing of their kind. `block` is that block; there is none where a hole is in its place, or
    /// where blocks that can each be read denote no tree.
    Damaged { block: Option<u32> },
}

impl TreeFault {
    /// The damage at the block that a pointer names. A hole names none.
    pub fn at(pointer: u32) -> TreeFault
        ensures { result ≡ Damaged (block_named pointer) }
    {
        let block = if pointer == 0 { None } else { Some(pointer) };
        TreeFault::Damaged { block }
    }
}

impl fmt::Display for TreeFault {
    ghost output = { λ fault. Some (text_of fault) };

    fn fmt<W: fmt::Write>(&self, f: &mut fmt::Formatter<W>) -> fmt::Result {
        match self {
            TreeFault::Read(fault) => write!(f, "{fault}"),
            TreeFault::Damaged { block: Some(block) } => {
                write!(f, "the image is damaged at block {block}")
            }
            TreeFault::Damaged { block: None } => write!(f, "the image is damaged"),
        }
    }
}

impl Error for TreeFault {}

impl From<ReadFault> for TreeFault {
    ghost from_gives = { λ fault tree. tree ≡ Read fault };

    fn from(fault: ReadFault) -> TreeFault {
        TreeFault::Read(fault)
    }
}

impl From<AllocError> for TreeFault {
    ghost from_gives = { λ _ tree. tree ≡ Read Memory };

    fn from(_error: AllocError) -> TreeFault {
        TreeFault::Read(ReadFault::Memory)
    }
}
