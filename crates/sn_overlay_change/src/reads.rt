//! Reads of the tree below, with its faults as those of overlays.
ghost use Rattle.std.specs.Prelude.{◌≡◌, IsTrue, IfOk, OnOk};
ghost use Rattle.std.specs.FinMap as map;
ghost use Rattle.sn_overlay.specs.Seen.{seen_node, seen_block};
ghost use Rattle.sn_overlay_change.specs.Faults.{IfBelow};
ghost use Rattle.sn_walk.specs.Frame.{Leaves};

use crate::LayerFault;
use sn_model::Link;
use sn_overlay::{Below, Block, FileBlock, SeenNode};

pub(crate) fn node_of<B: Below>(
    below: &mut B,
    number: u16,
) -> Result<Option<SeenNode>, LayerFault<B::Fault>>
    requires { B.holds below.old }
    ensures left { Leaves B.holds B.follows B.is_told B.shows below.old below.new }
    ensures found { IsTrue B.is_told → IfOk result (λ n. n ≡ seen_node (B.shows below.old) number) }
    ensures cause { IfBelow result (λ f. B.causes below.old below.new f) }
{
    match below.node(number) {
        Ok(node) => Ok(node),
        Err(fault) => Err(LayerFault::Below(fault)),
    }
}

pub(crate) fn number_of<B: Below>(
    below: &mut B,
    link: &Link,
) -> Result<Option<u16>, LayerFault<B::Fault>>
    requires { B.holds below.old }
    ensures left { Leaves B.holds B.follows B.is_told B.shows below.old below.new }
    ensures found { IsTrue B.is_told → IfOk result (λ n. n ≡ map.get (B.shows below.old).links link.now) }
    ensures cause { IfBelow result (λ f. B.causes below.old below.new f) }
{
    match below.link(link) {
        Ok(number) => Ok(number),
        Err(fault) => Err(LayerFault::Below(fault)),
    }
}

pub(crate) fn block_of<B: Below>(
    below: &mut B,
    file_block: FileBlock,
    block: &mut Block,
) -> Result<(), LayerFault<B::Fault>>
    requires { B.holds below.old }
    ensures left { Leaves B.holds B.follows B.is_told B.shows below.old below.new }
    ensures found { IsTrue B.is_told → OnOk result (block.new ≡ seen_block (B.shows below.old) file_block) }
    ensures cause { IfBelow result (λ f. B.causes below.old below.new f) }
{
    match below.read_block(file_block, block) {
        Ok(()) => Ok(()),
        Err(fault) => Err(LayerFault::Below(fault)),
    }
}
