//! What changed of a tree since a root.
ghost use Rattle.std.specs.Prelude.{◌≡◌, IfOk, OnOk, OnErr};
ghost use Rattle.std.specs.Option.{option_copied};
ghost use Rattle.std.specs.FinMap as map;
ghost use Rattle.sn_overlay.specs.Lists.{changed_names, without_blocks, written_blocks};
ghost use Rattle.sn_overlay.specs.Merges.{merge};
ghost use Rattle.sn_overlay.specs.Overlays.{layer_of, no_changes, HasRoom, TakesRoom, sizes_of, and_drops, gone, with_node, with_name, with_block};
ghost use Rattle.sn_overlay.specs.Sorted.{bytes_by_file_block};

use crate::sorted::SortedMap;
use crate::{FileBlock, NodeChange};
use sn_limits::Block;
use sn_model::Link;
use std::alloc::{AllocError, Global};

/// What changed of a tree: nodes, names and blocks. It says what a tree below looks like through it.
#[derive(Drop)]
pub struct Overlay {
    nodes: SortedMap<u16, NodeChange>,
    names: SortedMap<Link, Option<u16>>,
    blocks: SortedMap<FileBlock, Box<Block>>,
}

impl Overlay {
    /// Nothing changed. It takes no memory.
    pub fn new(alloc: Global) -> Overlay
        ensures { layer_of result ≡ no_changes }
    {
        Overlay {
            nodes: SortedMap::new(alloc),
            names: SortedMap::new(alloc),
            blocks: SortedMap::new(alloc),
        }
    }

    /// What became of a node, if anything did.
    ///
    /// Proved, also of `name`, `block`, `reserve`, `reserve_beside` and `merge`: An overlay in memory looks up what its
    /// layer has; laying another over it gives the merge, takes no memory, can't fail where room was made, and leaves the
    /// room beyond.
    pub fn node(&self, number: u16) -> Option<&NodeChange>
        ensures { option_copied result ≡ map.get (layer_of self.now).nodes number }
    {
        self.nodes.get(&number)
    }

    /// What a name denotes: a number, or none, where it changed.
    pub fn name(&self, link: &Link) -> Option<Option<u16>>
        ensures { result ≡ map.get (layer_of self.now).names link.now }
    {
        self.names.get(link).copied()
    }

    /// A block that was written.
    pub fn block(&self, file_block: FileBlock) -> Option<&Block>
        ensures { option_copied result ≡ map.get (layer_of self.now).blocks file_block }
    {
        match self.blocks.get(&file_block) {
            Some(block) => Some(block),
            None => None,
        }
    }

    /// The nodes that changed, in the order of their numbers, each with what became of it.
    ///
    /// Proved, also of `names_of` and `take_blocks`: An overlay gives exactly the nodes that changed, the names of a
    /// directory that changed and the blocks of a file that were written, each once, in the order of their keys; the blocks
    /// are moved out, and nothing else changes.
    pub fn nodes(&self) -> &[(u16, NodeChange)]
        ensures { result.now ≡ map.entries (layer_of self.now).nodes }
    {
        &self.nodes.entries
    }

    /// The names of a directory that changed, in their order, each with its number now, or none.
    pub fn names_of(&self, directory: u16) -> &[(Link, Option<u16>)]
        ensures { result.now ≡ changed_names (layer_of self.now) directory }
    {
        self.names.names_of(directory)
    }

    /// Moves the blocks of a file that were written out, in their order; what else changed stays. Where
    /// memory is refused, they stay too.
    pub fn take_blocks(
        &mut self,
        alloc: Global,
        file: u16,
    ) -> Result<Vec<(FileBlock, Box<Block>)>, AllocError>
        ensures taken { IfOk result (λ blocks. bytes_by_file_block blocks.items ≡ written_blocks (layer_of self.old) file) }
        ensures left { OnOk result (layer_of self.new ≡ without_blocks (layer_of self.old) file) }
        ensures same { OnErr result (layer_of self.new ≡ layer_of self.old) }
        ensures room { TakesRoom self.old self.new (record { nodes = 0; names = 0; blocks = 0 }) }
    {
        let taken = self.blocks.take_blocks(alloc, file)?;
        Ok(taken)
    }

    /// Makes room for so many more nodes, names and blocks. Whatever the answer, nothing that it shows
    /// changes.
    pub fn reserve(&mut self, nodes: usize, names: usize, blocks: usize) -> Result<(), AllocError>
        ensures same { layer_of self.new ≡ layer_of self.old }
        ensures room { OnOk result (HasRoom self.new (record { nodes = nodes; names = names; blocks = blocks })) }
        ensures kept { TakesRoom self.old self.new (record { nodes = 0; names = 0; blocks = 0 }) }
    {
        self.nodes.reserve(nodes)?;
        self.names.reserve(names)?;
        self.blocks.reserve(blocks)
    }

    /// Makes room for a newer overlay that is to be laid over this one. Whatever the answer, nothing
    /// that it shows changes.
    pub fn reserve_for(&mut self, newer: &Overlay) -> Result<(), AllocError>
        ensures same { layer_of self.new ≡ layer_of self.old }
        ensures room { OnOk result (HasRoom self.new (sizes_of newer.now)) }
        ensures kept { TakesRoom self.old self.new (record { nodes = 0; names = 0; blocks = 0 }) }
    {
        self.reserve(newer.nodes.len(), newer.names.len(), newer.blocks.len())
    }

    /// Makes room for a newer overlay that is to be laid over this one, and then for so many drops.
    /// Whatever the answer, nothing that it shows changes.
    pub fn reserve_beside(&mut self, newer: &Overlay, drops: u16) -> Result<(), AllocError>
        ensures same { layer_of self.new ≡ layer_of self.old }
        ensures room { OnOk result (HasRoom self.new (and_drops (sizes_of newer.now) drops)) }
        ensures kept { TakesRoom self.old self.new (record { nodes = 0; names = 0; blocks = 0 }) }
    {
        let nodes = newer.nodes.len() + usize::from(drops);
        self.reserve(nodes, newer.names.len(), newer.blocks.len())
    }

    /// A copy. Where memory is refused, this one is as it was.
    ///
    /// Proved: A copy is the same layer.
    pub fn copy(&self, alloc: Global) -> Result<Overlay, AllocError>
        ensures { IfOk result (λ copy. layer_of copy ≡ layer_of self.now) }
    {
        let nodes = self.nodes.copy(alloc)?;
        let names = self.names.copy(alloc)?;
        let blocks = self.blocks.copy(alloc)?;
        Ok(Overlay {
            nodes,
            names,
            blocks,
        })
    }

    /// A node changed. It takes no memory.
    pub fn set_node(&mut self, number: u16, change: NodeChange)
        requires { HasRoom self.old (record { nodes = 1; names = 0; blocks = 0 }) }
        ensures layer { layer_of self.new ≡ with_node (layer_of self.old) number change }
        ensures taken { TakesRoom self.old self.new (record { nodes = 1; names = 0; blocks = 0 }) }
    {
        self.nodes.insert(number, change);
    }

    /// A name has a number now, or none. It takes no memory.
    pub fn set_name(&mut self, link: Link, number: Option<u16>)
        requires { HasRoom self.old (record { nodes = 0; names = 1; blocks = 0 }) }
        ensures layer { layer_of self.new ≡ with_name (layer_of self.old) link number }
        ensures taken { TakesRoom self.old self.new (record { nodes = 0; names = 1; blocks = 0 }) }
    {
        self.names.insert(link, number);
    }

    /// A block was written. It takes no memory.
    pub fn set_block(&mut self, file_block: FileBlock, block: Box<Block>)
        requires { HasRoom self.old (record { nodes = 0; names = 0; blocks = 1 }) }
        ensures layer { layer_of self.new ≡ with_block (layer_of self.old) file_block block.value }
        ensures taken { TakesRoom self.old self.new (record { nodes = 0; names = 0; blocks = 1 }) }
    {
        self.blocks.insert(file_block, block);
    }

    /// A node is dropped, with the names and blocks that it had. It takes no memory.
    ///
    /// Proved: A node is dropped with its names and blocks without memory, as by the merge of the layer in which it is gone.
    pub fn drop_node(&mut self, number: u16, by_close: bool)
        requires { HasRoom self.old (record { nodes = 1; names = 0; blocks = 0 }) }
        ensures layer { layer_of self.new ≡ merge (layer_of self.old) (gone number by_close) }
        ensures taken { TakesRoom self.old self.new (record { nodes = 1; names = 0; blocks = 0 }) }
    {
        self.names.retain_others(number);
        self.blocks.retain_others(number);
        self.nodes.insert(number, NodeChange::Gone { by_close });
    }

    /// Lays a newer overlay over this one, for which there is room. It takes no memory.
    pub fn merge(&mut self, newer: Overlay)
        requires { HasRoom self.old (sizes_of newer) }
        ensures layer { layer_of self.new ≡ merge (layer_of self.old) (layer_of newer) }
        ensures taken { TakesRoom self.old self.new (sizes_of newer) }
    {
        self.names.retain_seen(&newer.nodes);
        self.blocks.retain_seen(&newer.nodes);
        self.nodes.lay_over(newer.nodes);
        self.names.extend(newer.names);
        self.blocks.extend(newer.blocks);
    }
}
