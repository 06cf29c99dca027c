//! What follows from the definitions. The functions do nothing: their clauses are the laws.
ghost use Rattle.sn_import_laws.specs.Laws.{ContentIsWritten, DirectoriesAreImported, DirectoriesGetOwners, DirectoriesGetRights, FilesAreImported, FilesAreMade, FilesGetRights, LinksAreImported};

/// The calls after a file's content give it its rights.
///
/// Proved: Where the calls after a file's content let its entry go on, the file at its path has the owner, the group and the access
/// ACL of the entry, and S_ISGID and S_ISVTX where it has one of them. Its bytes, every other node, each name and all else stay.
pub fn files_get_rights()
    ensures { FilesGetRights }
{}

/// The calls of a directory after all entries give it its rights.
///
/// Proved: Where the last calls of a directory let its entry go on, the directory at its path has both ACLs of the entry, S_ISGID and
/// S_ISVTX. Every other node, each name and all else stay.
pub fn directories_get_rights()
    ensures { DirectoriesGetRights }
{}

/// The call after a directory is made gives it its owner and its group.
///
/// Proved: Where chown() of a directory lets its entry go on, the directory at its path has the owner and the group of the entry, and
/// all else stays.
pub fn directories_get_owners()
    ensures { DirectoriesGetOwners }
{}

/// The writes of a content write it.
///
/// Proved: Where the writes of a content let its entry go on, the file that is open has all of it at its end, once and in its order, and
/// all else stays.
pub fn content_is_written()
    ensures { ContentIsWritten }
{}

/// The calls that open a new file, write its content, close it and give it its rights make it.
///
/// Proved: Where the calls of a new file let its entry go on, its path leads to a file that wasn't there, with exactly the content, the
/// owner, the group, S_ISGID, S_ISVTX and the access ACL of the entry, and without a default ACL. Every other node and every other name
/// stays, and the file is closed.
pub fn files_are_made()
    ensures { FilesAreMade }
{}

/// The entry of a file makes it, where its directories are there and nothing has its name.
///
/// Proved: Where all calls of an entry's file let it go on (`IsMade` of sn_import_files), in a live tree that has the directories above its path
/// and nothing at it, the path leads to a new file with exactly the content, the owner, the group, S_ISGID, S_ISVTX and the access ACL of
/// the entry. Every other node and every other name stays.
pub fn files_are_imported()
    ensures { FilesAreImported }
{}

/// The entry of a directory makes it, where its directories are there and nothing has its name.
///
/// Proved: Where all calls of an entry's directory let it go on, in a live tree that has the directories above its path and nothing at it, the
/// path leads to a new and empty directory with the owner and the group of the entry. Every other node and every other name stays.
pub fn directories_are_imported()
    ensures { DirectoriesAreImported }
{}

/// The entry of a hard link makes one more name, where its directories are there and nothing has its name.
///
/// Proved: Where all calls of an entry's hard link let it go on, in a live tree that has the directories above its path and nothing at it, the
/// path leads to the file that the other path led to. Every node and every other name stays.
pub fn links_are_imported()
    ensures { LinksAreImported }
{}
