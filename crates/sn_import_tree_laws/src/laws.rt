//! What follows from the definitions. The functions do nothing: their clauses are the laws.
ghost use Rattle.sn_import_tree_laws.specs.Laws.{CopiesHaveTheArchive, ImportsAreExported, TopsAreImported, TreesAreImported};

/// The entry of the directory itself that an archive goes into gives it its owner and its group.
///
/// Proved: Where all calls of the entry `./` let it go on, the directory that the archive goes into has the owner and the group of the
/// entry, and all else stays.
pub fn tops_are_imported()
    ensures { TopsAreImported }
{}

/// An import of the archive of a directory into an empty one, which reports nothing, makes what was exported.
///
/// Proved: Where an import of an archive that export wrote, into an empty directory, reports nothing, the same names lead below that
/// directory as below the one that was exported, and no others: each to a node with the same kind, owner, group, S_ISGID, S_ISVTX, access
/// ACL, default ACL and bytes, two names to one file exactly where they lead to one in the exported tree. The directory itself has the
/// owner, the group and the rights of the exported one. Every other node and every name in another directory stays, and so do the
/// snapshots, the sessions, and what is open in other sessions.
pub fn trees_are_imported()
    ensures { TreesAreImported }
{}

/// A copy has the same archive.
///
/// Proved: Where the same names lead in two trees to nodes that are the same, two names to one node exactly where they do in the other,
/// the archive of the one is the archive of the other, byte for byte.
pub fn copies_have_the_archive()
    ensures { CopiesHaveTheArchive }
{}

/// The archive of what such an import made is the one that it read.
///
/// Proved: Where an import of an archive that export wrote, into an empty directory, reports nothing, the archive of that directory is the
/// same, byte for byte.
pub fn imports_are_exported()
    ensures { ImportsAreExported }
{}
