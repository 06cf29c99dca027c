/// What a node is.
#[derive(Clone, Copy, PartialEq, Eq, Hash)]
pub enum Kind {
    File,
    Directory,
}
