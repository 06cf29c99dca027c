//! A tree seen through an overlay.
ghost use Rattle.std.specs.Prelude.{◌≡◌, ℕ, List, true, false};
ghost use Rattle.std.specs.Option.{option_copied};
ghost use Rattle.sn_overlay.specs.Pieces.{zeros};
ghost use Rattle.sn_overlay.specs.Seen.{block_shown};

use crate::node::{hides_block, hides_names};
use crate::{BLOCK_SIZE, Below, Block, FileBlock, NodeChange, Overlay, SeenNode};
use sn_model::Link;

// Puts zeros into a whole block.
fn clear(block: &mut Block)
    ensures { block.new ≡ zeros 4096 }
{
    *block = [0; BLOCK_SIZE];
}

// Puts a block as an overlay shows it, unless that is the block below.
fn shows_block(
    change: Option<&NodeChange>,
    written: Option<&Block>,
    index: u64,
    block: &mut Block,
) -> bool
    ensures shown { result ≡ true → (below : List ℕ) → block_shown (option_copied change.entry) (option_copied written.entry) index below ≡ block.new }
    ensures below { result ≡ false → (below : List ℕ) → block_shown (option_copied change.entry) (option_copied written.entry) index below ≡ below }
{
    match change {
        None => false,
        Some(NodeChange::Gone { .. }) => {
            clear(block);
            true
        }
        Some(NodeChange::Changed(_)) => match written {
            Some(written) => {
                *block = *written;
                true
            }
            None => {
                let is_hidden = hides_block(change, index);
                if is_hidden {
                    clear(block);
                }
                is_hidden
            }
        },
    }
}

/// A tree seen through an overlay that lies over it.
///
/// ```text
/// let mut live = Through { overlay: &top, below: &mut Through { overlay: &bottom, below: &mut image } };
/// let node = live.node(number)?;
/// ```
///
/// Proved: A tree is read through an overlay, over which another one may lie.
#[derive(Drop)]
pub struct Through<'a, B> {
    pub overlay: &'a Overlay,
    pub below: &'a mut B,
}

impl<'a, B: Below> Below for Through<'a, B> {
    ghost use Rattle.std.specs.Prelude.{◌≡◌, IsTrue};
    ghost use Rattle.std.proofs.Common.{refl, ◌∙◌};
    ghost use Rattle.sn_overlay.specs.Layers.{through};
    ghost use Rattle.sn_overlay.specs.Overlays.{layer_of};
    ghost use Rattle.sn_overlay.specs.Seen.{LiesOver};

    type Fault = B::Fault;

    ghost is_told = { B.is_told };

    ghost shows = { λ s. through (layer_of s.overlay.now) (B.shows s.below.now) };

    ghost holds = { λ s. B.holds s.below.now × (IsTrue B.is_told → LiesOver (layer_of s.overlay.now) (B.shows s.below.now)) };

    // the tree below is the same one, and shows the same
    ghost follows = { λ u v. B.follows u.below.now v.below.now × (v.below.ghost_name ≡ u.below.ghost_name)
        × (IsTrue B.is_told → B.shows v.below.now ≡ B.shows u.below.now) };

    ghost causes = { λ u v f. B.causes u.below.now v.below.now f };

    fn node(&mut self, number: u16) -> Result<Option<SeenNode>, B::Fault> {
        match self.overlay.node(number) {
            Some(NodeChange::Gone { .. }) => Ok(None),
            Some(NodeChange::Changed(state)) => Ok(Some(state.shown())),
            None => self.below.node(number),
        }
    }

    fn link(&mut self, link: &Link) -> Result<Option<u16>, B::Fault> {
        if let Some(number) = self.overlay.name(link) {
            return Ok(number);
        }
        if hides_names(self.overlay.node(link.directory)) {
            return Ok(None);
        }
        self.below.link(link)
    }

    fn read_block(&mut self, file_block: FileBlock, block: &mut Block) -> Result<(), B::Fault> {
        let change = self.overlay.node(file_block.file);
        let written = self.overlay.block(file_block);
        if shows_block(change, written, file_block.index, block) {
            return Ok(());
        }
        self.below.read_block(file_block, block)
    }

    ghost follows_itself = { λ v. (B.follows_itself v.below.now, refl, λ told. refl) };

    ghost follows_on = { λ u v w p q. (B.follows_on u.below.now v.below.now w.below.now p.0 q.0, q.1 ∙ p.1, λ told. q.2 told ∙ p.2 told) };

    ghost causes_later = { λ u v w f p q. B.causes_later u.below.now v.below.now w.below.now f p.0 q };
}
