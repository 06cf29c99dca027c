//! Files without names that go from the live tree.
ghost use Rattle.std.specs.Prelude.{◌≡◌, length};
ghost use Rattle.sn_overlay.specs.Needs.{counts};
ghost use Rattle.sn_overlay.specs.Overlays.{HasRoom, TakesRoom, layer_of};
ghost use Rattle.sn_changed.specs.Dropped.{LeadsOn, with_drops};

use arrayvec::ArrayVec;
use sn_overlay::Overlay;

/// A live file that went, since no name stands for it and nobody has it open any more.
#[derive(Clone, Copy, Default)]
pub struct DroppedFile {
    pub number: u16,
    /// Whether it went with its last descriptor, by a close or a logout. Else it went with its last name.
    pub by_close: bool,
}

/// The files that a call lets go: one for each descriptor of a session at most, and one that loses its
/// last name.
pub type DroppedFiles = ArrayVec<DroppedFile, 65>;

/// Takes files that went from the live tree out of what changed, for which there is room. It takes no
/// memory.
///
/// Proved, also of `dropped_laws`: Files that went are dropped from what changed in the room that there was for them,
/// without memory, and then it is what changed up to the tree that is left: of distinct files without names, and after each
/// caller.
pub fn drop_each(overlay: &mut Overlay, files: &[DroppedFile])
    requires { HasRoom overlay.old (counts (length files.now) 0 0) }
    ensures layer { layer_of overlay.new ≡ with_drops (layer_of overlay.old) files.now }
    ensures taken { TakesRoom overlay.old overlay.new (counts (length files.now) 0 0) }
    ensures changed { LeadsOn (layer_of overlay.old) files.now (layer_of overlay.new) }
{
    for file in files {
        overlay.drop_node(file.number, file.by_close);
    }
}
