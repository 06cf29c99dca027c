//! The laws that the definitions of `specs/` keep.
ghost use Rattle.sn_image.specs.Laws.{NodesAreTheirInodes, NamesAreInTheirDirectory, InodesDependOnTheirReach, RootsDependOnTheirReach, RootsDependOnTheirSectors, ReachIsASum, ReachHasEachPart, ReachIsOfAPart, RecordsAreRead, UnusedIsRead, AclBlocksAreRead, DirectoryBlocksAreRead, BytesAreInTheirBlocks, TreesHaveTheirSize, DataBlocksAreWhole, SoundRootsAreTrees, NamesInAreCounted, NamesForAreCounted, LinksAreCounted, SoundRootsAreWellFormed, NameTreesAreSound, SoundStays, SnapshotsStay};

/// The tree that a root denotes, point by point. Above this crate it is known by these alone.
///
/// Proved: The tree of a root is known point by point.
pub fn image_laws()
    ensures nodes { NodesAreTheirInodes }
    ensures names { NamesAreInTheirDirectory }
{}

/// The blocks that an image depends on.
///
/// Proved: The tree and the reach of a root depend on the blocks reached alone.
pub fn footprints()
    ensures inodes { InodesDependOnTheirReach }
    ensures roots { RootsDependOnTheirReach }
    ensures sectors { RootsDependOnTheirSectors }
{}

/// What a root reaches is what the inode file and its inodes reach, as often as they do.
///
/// Proved: The reach of a root is that of the inode file and of each inode.
pub fn reach_laws()
    ensures sum { ReachIsASum }
    ensures parts { ReachHasEachPart }
    ensures part { ReachIsOfAPart }
{}

/// What is spelled is read as it was spelled.
///
/// Proved: What the codecs spell is read as it was spelled.
pub fn reading_laws()
    ensures records { RecordsAreRead }
    ensures unused { UnusedIsRead }
    ensures acls { AclBlocksAreRead }
    ensures directories { DirectoryBlocksAreRead }
{}

/// The bytes of contents, where each block has as many as a block has.
///
/// Proved: Where blocks are whole, a byte in its own block is the byte of the content.
pub fn byte_laws()
    ensures places { BytesAreInTheirBlocks }
    ensures sizes { TreesHaveTheirSize }
    ensures disk { DataBlocksAreWhole }
{}

/// How many names the tree that a root denotes has, by what is in its directories, and the links of
/// inodes by those.
///
/// Proved: Where no name is twice in a directory, each directory has as many names in the tree as are in its blocks, and
/// each number as many as are in all; in a sound root inodes count those.
pub fn name_laws()
    ensures names_in { NamesInAreCounted }
    ensures names_for { NamesForAreCounted }
    ensures links { LinksAreCounted }
{}

/// A sound root denotes a name tree, and one that is placed and well formed is sound where it does.
///
/// Proved: A sound root denotes a name tree, with its hierarchy, its rules of nodes and names, and its limits.
/// Proved: A root whose blocks are placed and well formed, and which denotes a name tree, is sound; a sound one is well
/// formed.
pub fn sound_laws()
    ensures trees { SoundRootsAreTrees }
    ensures well_formed { SoundRootsAreWellFormed }
    ensures sound { NameTreesAreSound }
{}

/// What some limits allow a root, limits that allow no less allow it too.
pub fn limits_laws()
    ensures sound { SoundStays }
    ensures snapshots { SnapshotsStay }
{}
