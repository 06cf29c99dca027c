ghost use Rattle.sn_overlay.specs.Laws.{ChangesArePaid, DropsArePaid, DropsStayPaid, LayersShowNames, LayersShowNodes, MergesAreLayers, MergesCount, MergesFit, MergesLie, MergesShowBoth, MergesStayPaid, NeedsAdd, TwoLevelsAreCharged, VersionsAreCharged};

/// At each number the tree that is seen through a layer has the layer's node, or none where the layer
/// says so, or the node below.
///
/// Proved, also of `layers_show_names`: There is one tree that is seen through a layer of changed nodes, names and blocks.
pub fn layers_show_nodes()
    ensures { LayersShowNodes }
{}

/// At each name it has the layer's number or none, then none where the directory is gone or made anew,
/// and then what is below.
pub fn layers_show_names()
    ensures { LayersShowNames }
{}

/// To see a tree through two layers is to see it through their merge.
///
/// Proved, also of `merges_are_layers`, `merges_fit` and `merges_lie`: To see a tree through two layers is to see it through
/// their merge, which is whole and fits the tree below where they do.
pub fn merges_show_both()
    ensures { MergesShowBoth }
{}

/// A merge of whole layers is whole.
pub fn merges_are_layers()
    ensures { MergesAreLayers }
{}

/// A merge fits the tree below both.
///
/// Proved, also of `merges_are_layers`: A layer that fits a tree has of each node not made anew its kind, and its ACLs
/// unless it says that they may differ, and a block begins before its file's end; merges keep that.
pub fn merges_fit()
    ensures { MergesFit }
{}

/// A merge needs no more blocks than both layers.
///
/// Proved: The blocks that a consistency point needs for a merge are at most those for both layers.
pub fn needs_add()
    ensures { NeedsAdd }
{}

/// Each version that is read is charged so that its changes are paid.
pub fn versions_are_charged()
    ensures { VersionsAreCharged }
{}

/// So is one with files of two indirect levels, 10 blocks an inode and 3 a data block.
pub fn two_levels_are_charged()
    ensures { TwoLevelsAreCharged }
{}

/// The charge for a change pays for the blocks that its layer needs, and for a charge for each file
/// that it leaves without names.
///
/// Proved, also of `drops_are_paid`, `merges_stay_paid` and `drops_stay_paid`: The charge for a change covers what its layer
/// needs, and a file that it leaves without names, whose own charge pays for its drop.
pub fn changes_are_paid()
    ensures { ChangesArePaid }
{}

/// The charge for a file without names pays for the layer that drops it.
pub fn drops_are_paid()
    ensures { DropsArePaid }
{}

/// A merge of layers that are paid is paid.
pub fn merges_stay_paid()
    ensures { MergesStayPaid }
{}

/// A layer that drops a file without names stays paid: the file's own charge pays for that.
pub fn drops_stay_paid()
    ensures { DropsStayPaid }
{}

/// A merge says of each node that it has how many names the node has afterwards, where both layers do.
pub fn merges_count()
    ensures { MergesCount }
{}

/// A merge of layers that lie over one another lies over the tree below both.
pub fn merges_lie()
    ensures { MergesLie }
{}
