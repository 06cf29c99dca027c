//! What a change does to a tree that it can be applied to.

use crate::attributes::Attributes;
use crate::payload::Change;
use crate::tree::{Kind, Link, Name, Node, Tree};
use std::alloc::AllocError;

impl<'a> Tree<'a> {
    fn make(
        &mut self,
        link: Link<'a>,
        number: u16,
        kind: Kind,
        attributes: Attributes<'a>,
    ) -> Result<(), AllocError> {
        // A file without names may have had the number.
        self.nodes.retain(|node| node.number != number);
        self.nodes.push(Node {
            number,
            kind,
            attributes,
            size: 0,
        })?;
        self.link(link, number)
    }

    fn link(&mut self, link: Link<'a>, number: u16) -> Result<(), AllocError> {
        self.names.push(Name { link, number })?;
        Ok(())
    }

    /// A name goes, and a directory with it. A file stays.
    fn remove(&mut self, link: &Link<'_>) {
        let object = self.object(link);
        self.names.retain(|name| !name.link.is_same(link));
        if let Some(gone) = object
            && gone.kind == Kind::Directory
        {
            self.nodes.retain(|node| node.number != gone.number);
        }
    }

    /// Where both names are of one object, nothing changes.
    fn rename(&mut self, from: &Link<'_>, to: Link<'a>) -> Result<(), AllocError> {
        let (Some(moved), there) = (self.object(from), self.object(&to)) else {
            return Ok(());
        };
        if let Some(node) = there
            && node.number == moved.number
        {
            return Ok(());
        }
        self.remove(&to);
        self.names.retain(|name| !name.link.is_same(from));
        self.link(to, moved.number)
    }

    fn size_of(&self, number: u16) -> u64 {
        match self.node(number) {
            Some(node) => node.size,
            None => 0,
        }
    }

    fn set_size(&mut self, number: u16, size: u64) {
        for node in self.nodes.iter_mut() {
            if node.number == number {
                node.size = size;
            }
        }
    }

    fn set_attributes(&mut self, number: u16, attributes: Attributes<'a>) {
        for node in self.nodes.iter_mut() {
            if node.number == number {
                node.attributes = attributes;
            }
        }
    }

    /// Makes a change that nothing keeps from being applied.
    pub fn apply(&mut self, change: &Change<'a>) -> Result<(), AllocError> {
        match *change {
            Change::Make {
                link,
                number,
                kind,
                attributes,
            } => return self.make(link, number, kind, attributes),
            Change::AddLink { link, number } => return self.link(link, number),
            Change::Rename { from, to } => return self.rename(&from, to),
            Change::Remove { link } => self.remove(&link),
            Change::Write {
                number,
                offset,
                count,
            } => {
                let end = offset.saturating_add(count);
                self.set_size(number, end.max(self.size_of(number)));
            }
            Change::SetSize { number, size } => self.set_size(number, size),
            Change::SetAttributes { number, attributes } => self.set_attributes(number, attributes),
        }
        Ok(())
    }
}
