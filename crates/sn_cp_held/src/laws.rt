//! The laws that the definitions of `specs/` keep.
ghost use Rattle.sn_cp_held.specs.Builds.{BuildsAreBuilt, BuildsAreOfLive, BuildsAreSound, BuildsHaveRoom, BuildsLeaveRoom, RestoresAreOfLive, RestoresHaveRoom};
ghost use Rattle.sn_cp_held.specs.Laws.{BeginningsLeaveTheWorld};
ghost use Rattle.sn_cp_held.specs.Recovering.{RecoveriesLeaveTheWorld};

/// What a build gives is what a point needs, and what it leaves free; and a mount's live tree is built so, or that of a
/// snapshot that is brought back, with room for it.
///
/// Proved: What `build` gives over a sound root with its map, where the root can be written, the layer shows a name tree,
/// and the snapshots can be changed as asked, is what a point needs: blocks that are in no tree of root or snapshots, and a
/// next root that denotes the tree seen through the layer wherever they are written, sound with its snapshots and its map.
/// Proved: The next root has the snapshots that are asked for: those of the root, one more, or one less. The new one has the
/// tree that was seen through the layer, and each other the tree that it had, one that is brought back too.
/// Proved: The next root leaves free at least what the root left, but for the new blocks.
/// Proved: What `build` gives of a mount's live tree is a point of it, where what changed since its root is kept and was
/// charged (`RunsReady`): its root is sound with the snapshots that are asked for, is charged nothing, leaves a charge free
/// for each live file without a name, and takes no more of what was free than was charged.
/// Proved: So is what it gives of the tree of a snapshot that is brought back, over its inode file and without its files
/// without names, where these count among the dropped ones: its live tree is that one, its snapshots are those of the root,
/// and no new block was reached by the live tree of before.
/// Proved: Such builds find all that they read, and room for it.
pub fn build_laws()
    ensures built { BuildsAreBuilt }
    ensures sound { BuildsAreSound }
    ensures room { BuildsLeaveRoom }
    ensures live { BuildsAreOfLive }
    ensures fit { BuildsHaveRoom }
    ensures restored { RestoresAreOfLive }
    ensures restores_fit { RestoresHaveRoom }
{}

/// What the beginning of a point leaves of the world. `sn_cp_progress` says what its steps leave.
///
/// Proved: While a point begins, a crash at any moment leaves an image of the settled world, whatever the answer.
pub fn begin_laws()
    ensures { BeginningsLeaveTheWorld }
{}

/// What a point leaves of a disk on which a mount has replayed something: the same world, with an empty log.
///
/// Proved: A point of what a mount has replayed, two epochs on, leaves the world of the image at each moment, and once done
/// an image of that world on which nothing is logged, where nothing was unsynced and what was replayed and dropped is kept.
pub fn recovery_laws()
    ensures { RecoveriesLeaveTheWorld }
{}
