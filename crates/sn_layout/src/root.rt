//! | offset | field |
//! |---|---|
//! | 0 | version u32 |
//! | 4 | zeros |
//! | 8 | generation u64, 1 to 2^62 |
//! | 16 | epoch u64, 1 to 2^62 |
//! | 24 | number of snapshots u32 |
//! | 28 | zeros |
//! | 32 | root of the inode file, 72 bytes |
//! | 104 | zeros |
//! | 624 + 112i | snapshot i, by rising bit |
//! | after the last | zeros |
ghost use Rattle.std.specs.Prelude.{◌≡◌, ℕ, ◌+◌, ◌*◌, ◌<◌, ◌≤◌, List, [], ◌∷◌, ◌++◌, length, Some, IfSome, IsTrue, ◌↔◌};
ghost use Rattle.sn_layout.specs.RootBody.{IsAge};

use crate::snapshots::{fit, put_snapshots, read_to_end};
use crate::{BLOCK_SIZE, Block, BlockTree, Snapshots};
use sn_bytes::{Reader, put_u32, put_u64, put_zeros};
use sn_limits::Limits;

/// The largest generation and the largest epoch.
pub const LARGEST_AGE: u64 = 1 << 62;

/// A root: the state that a consistency point left on the disk, and its snapshots.
#[derive(PartialEq, Eq, Drop)]
pub struct RootBody {
    /// Those of the version that it is written in.
    pub limits: Limits,
    /// Of two roots the one with the greater generation is the newer.
    pub generation: u64,
    /// The epoch of the log records that belong on top of it.
    pub epoch: u64,
    pub inode_file: BlockTree,
    /// By rising bit.
    pub snapshots: Snapshots,
}

// What precedes the snapshots.
#[derive(Drop)]
struct Head {
    version: u32,
    generation: u64,
    epoch: u64,
    count: u32,
    inode_file: BlockTree,
}

// The numbers at its front as they are on the disk, those that have to be 0 among them.
#[derive(Drop)]
struct HeadNumbers {
    version: u32,
    before_ages: u32,
    generation: u64,
    epoch: u64,
    count: u32,
    before_tree: u32,
}

impl HeadNumbers {
    ghost use Rattle.sn_bytes.specs.Records.{numbers_then, AreOfWidths};
    ghost use Rattle.sn_layout.specs.RootBody.{head_widths, listed};

    fn read(reader: &mut Reader<'_>) -> Self
        requires { 32 ≤ length reader.old }
        ensures fits { AreOfWidths head_widths (listed result) }
        ensures read { reader.old ≡ numbers_then head_widths (listed result) reader.new }
        ensures left { length reader.new + 32 ≡ length reader.old }
    {
        HeadNumbers {
            version: reader.u32(),
            before_ages: reader.u32(),
            generation: reader.u64(),
            epoch: reader.u64(),
            count: reader.u32(),
            before_tree: reader.u32(),
        }
    }
}

fn is_age(age: u64) -> bool
    ensures { IsTrue result ↔ IsAge age }
{
    age >= 1 && age <= LARGEST_AGE
}

impl Head {
    ghost use Rattle.sn_bytes.specs.Bytes.{Puts};
    ghost use Rattle.sn_layout.specs.RootBody.{IsHead, IsRootBody, head_bytes, head_of};
    ghost use Rattle.sn_layout.specs.declared.root.Head.{Head as TheHead};
    ghost use Rattle.sn_layout.specs.declared.root.RootBody.{RootBody as TheRootBody};

    fn put(&self, block: &mut [u8]) -> usize
        requires { 624 ≤ length block.old }
        ensures bytes { Puts block.old block.new 0 result (head_bytes self.now) }
        ensures next { result ≡ 624 }
    {
        let at = put_u32(block, 0, self.version);
        let at = put_zeros(block, at, 4);
        let at = put_u64(block, at, self.generation);
        let at = put_u64(block, at, self.epoch);
        let at = put_u32(block, at, self.count);
        let at = put_zeros(block, at, 4);
        let at = self.inode_file.put(block, at);
        put_zeros(block, at, 520)
    }

    fn read(reader: &mut Reader<'_>) -> Option<Self>
        requires { 624 ≤ length reader.old }
        ensures found { IfSome result (λ head. IsHead head × (reader.old ≡ head_bytes head ++ reader.new)) }
        ensures only { (head : TheHead) (rest : List ℕ) → IsHead head → reader.old ≡ head_bytes head ++ rest
            → (result ≡ Some head) × (reader.new ≡ rest) }
        ensures left { IfSome result (λ head. length reader.new + 624 ≡ length reader.old) }
    {
        let numbers = HeadNumbers::read(reader);
        let inode_file = BlockTree::read(reader);
        let is_blank = reader.are_zeros(520);
        if numbers.before_ages != 0 || numbers.before_tree != 0 || !is_blank {
            return None;
        }
        Some(Head {
            version: numbers.version,
            generation: numbers.generation,
            epoch: numbers.epoch,
            count: numbers.count,
            inode_file,
        })
    }

    // The root body with these snapshots, if it can be written.
    fn with(self, snapshots: Snapshots) -> Option<RootBody>
        requires { self.count ≡ length snapshots }
        ensures found { IfSome result (λ body. IsRootBody body × (head_of body ≡ self) × (body.snapshots ≡ snapshots)) }
        ensures only { (body : TheRootBody) → IsRootBody body → head_of body ≡ self → body.snapshots ≡ snapshots → result ≡ Some body }
    {
        let body = RootBody {
            limits: Limits::of_version(self.version)?,
            generation: self.generation,
            epoch: self.epoch,
            inode_file: self.inode_file,
            snapshots,
        };
        if !body.is_valid() {
            return None;
        }
        Some(body)
    }
}

impl RootBody {
    ghost use Rattle.sn_bytes.specs.Bytes.{number_bytes};
    ghost use Rattle.sn_layout.specs.RootBody.{IsRootBody, root_body_bytes};
    ghost use Rattle.sn_layout.specs.declared.root.RootBody.{RootBody as TheRootBody};

    /// The version that a block names, whether or not the block is a root body of it.
    pub fn version(block: &Block) -> u32
        ensures { (rest : List ℕ) × (block.now ≡ number_bytes 4 result ++ rest) }
    {
        Reader::new(block).u32()
    }

    /// Whether it can be written: of a version that is read, its ages from 1 to the largest, with
    /// snapshots that a disk of this version can hold.
    pub fn is_valid(&self) -> bool
        ensures { IsTrue result ↔ IsRootBody self.now }
    {
        self.inode_file.fits();
        fit(self.snapshots.as_slice());
        Limits::of_version(self.limits.version) == Some(self.limits)
            && is_age(self.generation)
            && is_age(self.epoch)
            && self.snapshots.are_held(&self.limits)
    }

    /// Writes the whole block, whatever was there.
    pub fn encode(&self, block: &mut Block)
        requires { IsRootBody self.now }
        ensures { block.new ≡ root_body_bytes self.now }
    {
        let snapshots = self.snapshots.as_slice();
        let head = Head {
            version: self.limits.version,
            generation: self.generation,
            epoch: self.epoch,
            count: snapshots.len() as u32,
            inode_file: self.inode_file,
        };
        let at = head.put(block);
        let at = put_snapshots(block, at, snapshots);
        put_zeros(block, at, BLOCK_SIZE - at);
    }

    /// The root body that the block spells.
    pub fn decode(block: &Block) -> Option<Self>
        ensures found { IfSome result (λ body. IsRootBody body × (block.now ≡ root_body_bytes body)) }
        ensures only { (body : TheRootBody) → IsRootBody body → block.now ≡ root_body_bytes body → result ≡ Some body }
    {
        let mut reader = Reader::new(block);
        let head = Head::read(&mut reader)?;
        let snapshots = read_to_end(&mut reader, head.count)?;
        head.with(snapshots)
    }
}
