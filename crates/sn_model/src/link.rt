use crate::Word;

/// A name of a directory.
#[derive(Drop, PartialEq, Eq, PartialOrd, Ord)]
pub struct Link {
    pub directory: u16,
    pub name: Word,
}
