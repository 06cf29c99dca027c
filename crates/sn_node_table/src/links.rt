//! The names of a node.
ghost use Rattle.std.specs.Prelude.{◌≡◌, ◌<◌, ◌∷◌, ◌++◌, ◌-◌, [], IfOk, OnOk, None, OnErr, OnSome, not, drop, filter, length, slice_get, take};
ghost use Rattle.std.specs.Option.{option_copied, option_to_list};

use sn_model::Word;
use std::alloc::{AllocError, Global};
use std::mem;

/// A name under which a node was found.
#[derive(Drop)]
pub struct Link {
    /// The id of the directory.
    pub parent: u64,
    pub name: Word,
}

impl Link {
    ghost use Rattle.sn_node_table.specs.Nodes.{is_link, link_to};

    /// The link of a name, which it copies.
    pub fn new(alloc: Global, parent: u64, name: &[u8]) -> Result<Link, AllocError>
        ensures { IfOk result (λ link. link ≡ link_to parent name.now) }
    {
        let name = Word::new(alloc, name)?;
        Ok(Link { parent, name })
    }

    /// Whether it is this name of this directory.
    pub fn is(&self, parent: u64, name: &[u8]) -> bool
        ensures { result ≡ is_link parent name.now self.now }
    {
        self.parent == parent && self.name.as_bytes() == name
    }
}

/// The names of a node, in the order in which they were found. Nearly every node has one, which needs no block of its own.
#[derive(Drop)]
pub(crate) enum Links {
    Empty,
    One(Link),
    Many(Vec<Link>),
}

impl Links {
    ghost use Rattle.sn_node_table.specs.Nodes.{is_link};
    ghost use Rattle.sn_node_table.specs.Stored.{links_in};

    /// How many there are.
    pub fn len(&self) -> usize
        ensures { result ≡ length (links_in self.now) }
    {
        match self {
            Links::Empty => 0,
            Links::One(_) => 1,
            Links::Many(links) => links.len(),
        }
    }

    /// The first one.
    pub fn first(&self) -> Option<&Link>
        ensures { option_copied result ≡ slice_get (links_in self.now) 0 }
    {
        match self {
            Links::Empty => None,
            Links::One(link) => Some(link),
            Links::Many(links) => links.first(),
        }
    }

    /// Adds one at the end.
    pub fn push(&mut self, alloc: Global, link: Link) -> Result<(), AllocError>
        ensures ok { OnOk result (links_in self.new ≡ links_in self.old ++ link ∷ []) }
        ensures err { OnErr result (links_in self.new ≡ links_in self.old) }
    {
        match mem::replace(self, Links::Empty) {
            Links::Empty => {
                *self = Links::One(link);
                Ok(())
            }
            Links::One(first) => self.set_two(alloc, first, link),
            Links::Many(links) => self.set_longer(links, link),
        }
    }

    /// Makes it of two names, or of the first alone where memory is refused.
    fn set_two(&mut self, alloc: Global, first: Link, second: Link) -> Result<(), AllocError>
        ensures ok { OnOk result (links_in self.new ≡ first ∷ second ∷ []) }
        ensures err { OnErr result (links_in self.new ≡ first ∷ []) }
    {
        match Vec::with_capacity(alloc, 2) {
            Ok(mut links) => {
                links.push_reserved(first);
                links.push_reserved(second);
                *self = Links::Many(links);
                Ok(())
            }
            Err(refused) => {
                *self = Links::One(first);
                Err(refused)
            }
        }
    }

    /// Makes it of names and one more, or of the names alone where memory is refused.
    fn set_longer(&mut self, mut links: Vec<Link>, link: Link) -> Result<(), AllocError>
        ensures ok { OnOk result (links_in self.new ≡ links.items ++ link ∷ []) }
        ensures err { OnErr result (links_in self.new ≡ links.items) }
    {
        let pushed = links.push(link);
        *self = Links::Many(links);
        pushed?;
        Ok(())
    }

    /// Removes the last one, and returns it.
    pub fn pop(&mut self) -> Option<Link>
        ensures items { links_in self.old ≡ links_in self.new ++ option_to_list result }
        ensures rest { links_in self.new ≡ take (length (links_in self.old) - 1) (links_in self.old) }
        ensures none { result ≡ None → links_in self.old ≡ [] }
        ensures shorter { OnSome result (length (links_in self.new) < length (links_in self.old)) }
    {
        match mem::replace(self, Links::Empty) {
            Links::Empty => None,
            Links::One(link) => Some(link),
            Links::Many(mut links) => {
                let last = links.pop();
                *self = Links::Many(links);
                last
            }
        }
    }

    /// Removes the first one, and returns it.
    pub fn take_first(&mut self) -> Option<Link>
        ensures link { result ≡ slice_get (links_in self.old) 0 }
        ensures rest { links_in self.new ≡ drop 1 (links_in self.old) }
    {
        match mem::replace(self, Links::Empty) {
            Links::Empty => None,
            Links::One(link) => Some(link),
            Links::Many(mut links) => {
                if links.is_empty() {
                    return None;
                }
                let first = links.remove(0);
                *self = Links::Many(links);
                Some(first)
            }
        }
    }

    /// Removes a name of a directory.
    pub fn remove(&mut self, parent: u64, name: &[u8])
        ensures { links_in self.new ≡ filter (λ link. not (is_link parent name.now link)) (links_in self.old) }
    {
        match mem::replace(self, Links::Empty) {
            Links::Empty => {}
            Links::One(link) => {
                if !link.is(parent, name) {
                    *self = Links::One(link);
                }
            }
            Links::Many(mut links) => {
                links.retain(|link| !link.is(parent, name));
                *self = Links::Many(links);
            }
        }
    }
}
