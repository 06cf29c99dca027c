//! What follows from the answers.
ghost use Rattle.sn_dir.specs.Laws.{SoundDirectoriesAreRead};

use sn_tree_read::read_laws;

/// On a sound image `Damaged` is never answered.
///
/// Proved: On a sound image whose blocks are on the device no reader of a directory answers `Damaged`.
pub fn directory_laws()
    ensures { SoundDirectoriesAreRead }
{
    read_laws();
}
