ghost use Rattle.sn_overlay_change.specs.Laws.{AttributesShow, ChangesAreLayers, ChangesCount, ChangesNeed, ChangesShow, CutsKeep, CutsZero, DropsAreCounted, DropsLie, DropsNeed, DropsShow, LinksShow, MakesShow, NamelessAreCounted, NamelessStay, RemovesShow, RenamesShow, SizesShow, StayingIsCounted, WritesKeep, WritesShow, WritesSpan, WritesSplice};

/// Through the layer of a make, the tree is the one with the new node under its name.
pub fn makes_show()
    ensures { MakesShow }
{}

/// Through the layer of a link, the tree is the one with one more name.
pub fn links_show()
    ensures { LinksShow }
{}

/// Through the layer of a remove, the tree is the one without the name, and without the directory that
/// had it.
pub fn removes_show()
    ensures { RemovesShow }
{}

/// Through the layer of a setting of attributes, the node has them, and its bytes.
pub fn attributes_show()
    ensures { AttributesShow }
{}

/// Through the layer of a setting of a size, the file is cut off there, or has zeros up to there.
pub fn sizes_show()
    ensures { SizesShow }
{}

/// Through the layer of a rename, the name is moved, and what had the new one has lost it.
pub fn renames_show()
    ensures { RenamesShow }
{}

/// Through the layer of a write, the file has the bytes in place, with zeros up to there.
pub fn writes_show()
    ensures { WritesShow }
{}

/// Through the layer of any change, the tree is what the change makes of it.
///
/// Proved: Each of the seven changes has a layer: through it the tree is exactly what the change makes of it.
pub fn changes_show()
    ensures { ChangesShow }
{}

/// That layer is whole, and fits the tree.
///
/// Proved, also of `changes_need`: The layer of a change may be laid over others there, and needs no more blocks than are
/// counted for the change.
pub fn changes_are_layers()
    ensures { ChangesAreLayers }
{}

/// It needs no more blocks than were counted for the change.
pub fn changes_need()
    ensures { ChangesNeed }
{}

/// It says of each node that it has how many names the node has afterwards.
pub fn changes_count()
    ensures { ChangesCount }
{}

/// A change leaves no more files without names than are counted for it.
///
/// Proved: A change leaves no more files without names than are counted for it.
pub fn nameless_are_counted()
    ensures { NamelessAreCounted }
{}

/// By a change that gives no file its first name, files without names stay so.
///
/// Proved, also of `staying_is_counted`: A change that makes a node of an unused number or names a file that has a name, and
/// each of another kind, leaves files without names so, and no fewer of them.
pub fn nameless_stay()
    ensures { NamelessStay }
{}

/// Where files without names stay so, there are no fewer.
pub fn staying_is_counted()
    ensures { StayingIsCounted }
{}

/// Through the layer in which a file is gone, the tree is the one without its node.
///
/// Proved, also of `drops_lie`, `drops_need` and `drops_are_counted`: The layer in which a file is gone shows the tree
/// without its node, lies over the tree and needs what is counted for one node, and a file without names that is dropped is one
/// less of them.
pub fn drops_show()
    ensures { DropsShow }
{}

/// That layer lies over the tree.
pub fn drops_lie()
    ensures { DropsLie }
{}

/// It needs the blocks that are counted for one node.
pub fn drops_need()
    ensures { DropsNeed }
{}

/// When a file without names is dropped, there is one less of them.
pub fn drops_are_counted()
    ensures { DropsAreCounted }
{}

/// The block in which a file is cut off is the old one with zeros from there on.
///
/// Proved, also of `cuts_keep`, `writes_splice`, `writes_span` and `writes_keep`: What a cut or a write leaves of each block
/// is said once.
pub fn cuts_zero()
    ensures { CutsZero }
{}

/// The blocks before a cut stay, and all blocks of a file that isn't made shorter.
pub fn cuts_keep()
    ensures { CutsKeep }
{}

/// A block in which bytes are written is the old one with them in place.
pub fn writes_splice()
    ensures { WritesSplice }
{}

/// Where bytes reach over several blocks, each block gets those that are in it.
pub fn writes_span()
    ensures { WritesSpan }
{}

/// A block in which none are written is unchanged.
pub fn writes_keep()
    ensures { WritesKeep }
{}
