use sn_model::{StoredAcl, Word};

/// Owner, group and rights of an object.
#[derive(Drop)]
pub struct Rights {
    pub user: u32,
    pub group: u32,
    /// S_ISGID.
    pub set_gid: bool,
    /// S_ISVTX.
    pub sticky: bool,
    pub access: StoredAcl,
    /// What objects made in a directory take over, if it has such an ACL. A file has none.
    pub default: Option<StoredAcl>,
}

/// What is made for an entry of an archive.
#[derive(Drop)]
pub enum What {
    /// A file with content.
    File(Rights),
    Directory(Rights),
    /// The directory that the archive goes into, which is there.
    Top(Rights),
    /// One more name of the file with this path.
    HardLink(Word),
}

/// What is made for an entry, and where.
#[derive(Drop)]
pub struct Object {
    /// Its path in the image.
    pub path: Word,
    /// How many bytes of it are before the first name below the directory that the archive goes into.
    pub lead: usize,
    pub what: What,
}
