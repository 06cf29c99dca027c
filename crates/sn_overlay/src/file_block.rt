/// Which block of a file: the file's number, and how many of its blocks come before it.
#[derive(Clone, Copy, PartialEq, Eq, PartialOrd, Ord)]
pub struct FileBlock {
    pub file: u16,
    pub index: u64,
}
