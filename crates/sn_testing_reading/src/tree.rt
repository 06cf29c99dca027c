//! The nodes and names of a tree, as lists.

use crate::attributes::Attributes;
use std::alloc::{AllocError, Global};

/// The number of the root directory.
const ROOT: u16 = 2;

/// What a node is.
#[derive(Clone, Copy, PartialEq, Eq)]
pub enum Kind {
    File,
    Directory,
}

/// A name of a directory.
#[derive(Clone, Copy)]
pub struct Link<'a> {
    pub directory: u16,
    pub name: &'a [u8],
}

impl Link<'_> {
    pub(crate) fn is_same(&self, other: &Link<'_>) -> bool {
        self.directory == other.directory && self.name == other.name
    }

    /// The root directory has a name for the snapshots, which is in no tree.
    pub(crate) fn is_hidden(&self) -> bool {
        self.directory == ROOT && self.name == b".snapshot".as_slice()
    }
}

/// A name, and the number that it stands for.
#[derive(Clone, Copy)]
pub struct Name<'a> {
    pub link: Link<'a>,
    pub number: u16,
}

/// A file or a directory.
#[derive(Clone, Copy)]
pub struct Node<'a> {
    pub number: u16,
    pub kind: Kind,
    pub attributes: Attributes<'a>,
    /// The bytes of a file.
    pub size: u64,
}

/// Nodes and names.
#[derive(Drop)]
pub struct Tree<'a> {
    pub(crate) nodes: Vec<Node<'a>>,
    pub(crate) names: Vec<Name<'a>>,
}

impl<'a> Tree<'a> {
    /// An empty root directory.
    pub fn new(alloc: Global) -> Result<Tree<'a>, AllocError> {
        let mut nodes = Vec::new(alloc);
        nodes.push(Node {
            number: ROOT,
            kind: Kind::Directory,
            attributes: Attributes::of_root(),
            size: 0,
        })?;
        Ok(Tree {
            nodes,
            names: Vec::new(alloc),
        })
    }

    /// All nodes, the root directory among them.
    pub fn nodes(&self) -> &[Node<'a>] {
        self.nodes.as_slice()
    }

    /// All names of all directories.
    pub fn names(&self) -> &[Name<'a>] {
        self.names.as_slice()
    }

    /// The node with this number, if there is one.
    pub fn node(&self, number: u16) -> Option<Node<'a>> {
        self.nodes
            .iter()
            .copied()
            .find(|node| node.number == number)
    }

    /// What a name stands for.
    pub fn object(&self, link: &Link<'_>) -> Option<Node<'a>> {
        let name = self
            .names
            .iter()
            .copied()
            .find(|name| name.link.is_same(link))?;
        self.node(name.number)
    }

    /// A name that stands for a number.
    pub fn name_for(&self, number: u16) -> Option<Name<'a>> {
        self.names
            .iter()
            .copied()
            .find(|name| name.number == number)
    }

    /// How many names stand for a number.
    pub fn names_for(&self, number: u16) -> usize {
        self.names
            .iter()
            .filter(|name| name.number == number)
            .count()
    }

    pub(crate) fn is_empty(&self, directory: u16) -> bool {
        !self
            .names
            .iter()
            .any(|name| name.link.directory == directory)
    }

    /// Whether a directory is another one, or lies in it.
    pub(crate) fn is_at_or_below(&self, top: u16, directory: u16) -> bool {
        let mut at = directory;
        for _ in 0..self.names.len() {
            if at == top {
                return true;
            }
            match self.name_for(at) {
                Some(name) => at = name.link.directory,
                None => return false,
            }
        }
        at == top
    }
}
