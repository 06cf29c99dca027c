//! A tree seen through what was logged, with the table of its directories.
ghost use Rattle.std.specs.Prelude.{◌≡◌};
ghost use Rattle.sn_directories.specs.Told.{is_directory_seen};

use crate::{Directories, KeepsNames};
use sn_applies::NamedTree;
use sn_limits::Kind;
use sn_model::Link;
use sn_overlay::{Below, Block, FileBlock, SeenNode, Through};

// Whether what is seen is a directory.
fn is_directory(seen: &Option<SeenNode>) -> bool
    ensures { result ≡ is_directory_seen seen.now }
{
    match seen {
        Some(node) => node.kind == Kind::Directory,
        None => false,
    }
}

/// A tree seen through an overlay, with the table of the directories that are seen.
///
/// ```text
/// let mut live = LoggedTree { shown: Through { overlay: &changed, below: &mut root }, directories: &directories };
/// ```
///
/// Proved: A tree below an overlay with a table of its directories is a tree that changes can be tried on: what is seen,
/// names of directories and the way up from them.
#[derive(Drop)]
pub struct LoggedTree<'a, B> {
    pub shown: Through<'a, B>,
    pub directories: &'a Directories,
}

impl<'a, B: KeepsNames> Below for LoggedTree<'a, B> {
    ghost use Rattle.std.specs.Prelude.{◌≡◌, IsTrue};
    ghost use Rattle.std.proofs.Common.{refl, ◌∙◌};
    ghost use Rattle.sn_overlay.specs.Layers.{through};
    ghost use Rattle.sn_overlay.specs.Overlays.{layer_of};
    ghost use Rattle.sn_directories.specs.Told.{IsShown};

    type Fault = B::Fault;

    ghost is_told = { B.is_told };

    ghost shows = { λ v. through (layer_of v.shown.overlay.now) (B.shows v.shown.below.now) };

    ghost holds = { λ v. B.holds v.shown.below.now × (IsTrue B.is_told → IsShown (layer_of v.shown.overlay.now) (B.shows v.shown.below.now) v.directories.now) };

    // the tree below is the same one, and shows the same
    ghost follows = { λ u v. B.follows u.shown.below.now v.shown.below.now × (v.shown.below.ghost_name ≡ u.shown.below.ghost_name)
        × (IsTrue B.is_told → B.shows v.shown.below.now ≡ B.shows u.shown.below.now) };

    ghost causes = { λ u v f. B.causes u.shown.below.now v.shown.below.now f };

    fn node(&mut self, number: u16) -> Result<Option<SeenNode>, B::Fault> {
        self.shown.node(number)
    }

    fn link(&mut self, link: &Link) -> Result<Option<u16>, B::Fault> {
        self.shown.link(link)
    }

    fn read_block(&mut self, file_block: FileBlock, block: &mut Block) -> Result<(), B::Fault> {
        self.shown.read_block(file_block, block)
    }

    ghost follows_itself = { λ v. (B.follows_itself v.shown.below.now, refl, λ told. refl) };

    ghost follows_on = { λ u v w p q. (B.follows_on u.shown.below.now v.shown.below.now w.shown.below.now p.0 q.0, q.1 ∙ p.1, λ told. q.2 told ∙ p.2 told) };

    ghost causes_later = { λ u v w f p q. B.causes_later u.shown.below.now v.shown.below.now w.shown.below.now f p.0 q };
}

impl<'a, B: KeepsNames> NamedTree for LoggedTree<'a, B> {
    fn number(&mut self, directory: u16, name: &[u8]) -> Result<Option<u16>, B::Fault> {
        match self.shown.below.keep_name(directory, name) {
            Ok(link) => self.shown.link(&link),
            Err(fault) => Err(fault),
        }
    }

    fn names_in(&mut self, directory: u16) -> Result<u32, B::Fault> {
        Ok(self.directories.names_in(directory))
    }

    fn is_below(&mut self, top: u16, directory: u16) -> Result<bool, B::Fault> {
        match self.shown.node(directory) {
            Ok(node) => {
                if !is_directory(&node) {
                    return Ok(false);
                }
                Ok(self.directories.is_at_or_below(top, directory))
            }
            Err(fault) => Err(fault),
        }
    }
}
