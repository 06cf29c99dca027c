//! The live tree of a root, below an overlay.
ghost use Rattle.std.specs.Prelude.{◌≡◌, IfErr, IfOk};
ghost use Rattle.sn_block.specs.declared.fault.ReadFault.TheVariants.{Memory};
ghost use Rattle.sn_model.specs.Tree.{link_to};
ghost use Rattle.sn_tree_read.specs.declared.fault.TreeFault.TheVariants.{Read};
ghost use Rattle.sn_rooted_tree.specs.Looks.{fault_of};

use crate::seeing::{read_block, seen_node};
use sn_block::{Blocks, ReadFault};
use sn_device::Device;
use sn_directories::KeepsNames;
use sn_layout::RootBody;
use sn_model::{Link, Word};
use sn_overlay::{Below, Block, FileBlock, SeenNode};
use sn_rooted::link;
use sn_tree_read::TreeFault;
use std::alloc::Global;

// The fault of an answer, if it is one.
pub(crate) fn fault_of<T>(answer: &Result<T, TreeFault>) -> Option<TreeFault>
    ensures { result ≡ fault_of answer.now }
{
    match answer {
        Ok(_) => None,
        Err(fault) => Some(*fault),
    }
}

// A name with memory of its own.
fn kept_name(alloc: Global, directory: u16, name: &[u8]) -> Result<Link, TreeFault>
    ensures link { IfOk result (λ link. link ≡ link_to directory name.now) }
    ensures fault { IfErr result (λ fault. fault ≡ Read Memory) }
{
    match Word::new(alloc, name) {
        Ok(name) => Ok(Link { directory, name }),
        Err(_) => Err(TreeFault::Read(ReadFault::Memory)),
    }
}

/// The live tree of a root on a device, with the frozen ones of its snapshots beside it. Nothing is kept of them, and
/// each look-up reads what it needs. Once one has failed, each later one fails so, and reads nothing.
///
/// Proved: The tree of a sound root is what is below an overlay: each node with its owner and both ACLs, each name, each
/// block of a file, as the root denotes them, read when it is asked for.
/// Proved: The names of a directory, each with its number, in the order of their bytes, are as the root denotes them.
/// Proved: A look-up fails only where the device failed or ended, memory was refused, or the device doesn't tell its bytes;
/// its fault stays, so that each later look-up answers it and reads nothing, and while there is none nothing was counted.
/// Proved, also of each other function: Nothing is written, and nothing is counted but the failure of a read.
#[derive(Drop)]
pub struct RootedTree<'a, D: Device> {
    pub alloc: Global,
    pub blocks: &'a mut Blocks<D>,
    pub root: &'a RootBody,
    /// The fault of the look-up that failed, `None` at the start.
    pub fault: Option<TreeFault>,
}

impl<'a, D: Device> Below for RootedTree<'a, D> {
    ghost use Rattle.std.specs.Prelude.{◌≡◌, IsTrue, Some};
    ghost use Rattle.std.proofs.Common.{refl, ◌∙◌};
    ghost use Rattle.sn_block.specs.Lending.{device_of};
    ghost use Rattle.sn_rooted.specs.Roots.{IsSoundOn, tree_on};
    ghost use Rattle.sn_rooted_tree.specs.LookLaws.{looks-itself, looks-on};
    ghost use Rattle.sn_rooted_tree.specs.Looks.{Looks};

    type Fault = TreeFault;

    ghost is_told = { D.tells_bytes };

    ghost shows = { λ v. tree_on v.blocks.now v.root.now.inode_file };

    // where the device tells its bytes, the root is sound
    ghost holds = { λ v. IsTrue D.tells_bytes → IsSoundOn v.blocks.now v.root.now.limits v.root.now.inode_file };

    // nothing is written, and nothing is counted but the failure that is kept
    ghost follows = { λ u v. Looks D.tells_bytes (D.status (device_of u.blocks.now)) (D.status (device_of v.blocks.now))
        (D.disk (device_of u.blocks.now)) (D.disk (device_of v.blocks.now)) u.root.now v.root.now u.fault v.fault
        × (v.blocks.ghost_name ≡ u.blocks.ghost_name) };

    ghost causes = { λ u v f. v.fault ≡ Some f };

    fn node(&mut self, number: u16) -> Result<Option<SeenNode>, TreeFault> {
        if let Some(fault) = self.fault {
            return Err(fault);
        }
        let answer = seen_node(
            self.blocks,
            &self.root.limits,
            &self.root.inode_file,
            number,
        );
        self.fault = fault_of(&answer);
        answer
    }

    fn link(&mut self, name: &Link) -> Result<Option<u16>, TreeFault> {
        if let Some(fault) = self.fault {
            return Err(fault);
        }
        let answer = link(
            self.blocks,
            &self.root.limits,
            &self.root.inode_file,
            name.directory,
            name.name.as_bytes(),
        );
        self.fault = fault_of(&answer);
        answer
    }

    fn read_block(&mut self, file_block: FileBlock, block: &mut Block) -> Result<(), TreeFault> {
        if let Some(fault) = self.fault {
            return Err(fault);
        }
        let answer = read_block(
            self.alloc,
            self.blocks,
            &self.root.limits,
            &self.root.inode_file,
            file_block,
            block,
        );
        self.fault = fault_of(&answer);
        answer
    }

    ghost follows_itself = { λ v. (looks-itself D.tells_bytes (D.status (device_of v.blocks.now)) (D.disk (device_of v.blocks.now)) v.root.now v.fault, refl) };

    ghost follows_on = { λ u v w p q. (
      looks-on D.tells_bytes (D.status (device_of u.blocks.now)) (D.status (device_of v.blocks.now)) (D.status (device_of w.blocks.now))
          (D.disk (device_of u.blocks.now)) (D.disk (device_of v.blocks.now)) (D.disk (device_of w.blocks.now)) u.root.now v.root.now w.root.now u.fault v.fault w.fault p.0 q.0,
      q.1 ∙ p.1,
    ) };

    ghost causes_later = { λ u v w f p q. q };
}

impl<'a, D: Device> KeepsNames for RootedTree<'a, D> {
    fn keep_name(&mut self, directory: u16, name: &[u8]) -> Result<Link, TreeFault> {
        if let Some(fault) = self.fault {
            return Err(fault);
        }
        let answer = kept_name(self.alloc, directory, name);
        self.fault = fault_of(&answer);
        answer
    }
}
