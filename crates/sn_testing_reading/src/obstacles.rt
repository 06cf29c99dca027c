//! What a change needs of a tree.
//!
//! No directory has 65,535 names here and no file 32,767: a half has no room for so many records.

use crate::attributes::Attributes;
use crate::payload::Change;
use crate::tree::{Kind, Link, Node, Tree};

/// The bytes of the largest file.
const LARGEST_FILE: u64 = 68_719_476_736;

/// The greatest number that no new node gets: that of the root directory.
const RESERVED: u16 = 2;

/// Why a change can't be applied.
#[derive(Clone, Copy, PartialEq, Eq)]
pub enum Obstacle {
    /// The number of a new node is that of the root directory, or less.
    ReservedNumber,
    /// The number of a new node is that of one with a name, or of a directory.
    TakenNumber,
    HiddenName,
    TakenName,
    NoDirectory,
    FileAsDirectory,
    NoFile,
    DirectoryAsFile,
    NoNode,
    NoName,
    /// The directory whose name goes has names.
    NotEmpty,
    BelowItself,
    /// What is replaced is of another kind.
    OtherKind,
    TooLarge,
    /// A file has no default ACL.
    DefaultAcl,
}

fn fits(kind: Kind, attributes: &Attributes<'_>) -> Result<(), Obstacle> {
    if kind == Kind::File && !attributes.default.is_empty() {
        return Err(Obstacle::DefaultAcl);
    }
    Ok(())
}

fn is_within(size: u64) -> Result<(), Obstacle> {
    if size > LARGEST_FILE {
        return Err(Obstacle::TooLarge);
    }
    Ok(())
}

impl<'a> Tree<'a> {
    fn directory(&self, number: u16) -> Result<(), Obstacle> {
        match self.node(number) {
            None => Err(Obstacle::NoDirectory),
            Some(node) if node.kind == Kind::File => Err(Obstacle::FileAsDirectory),
            Some(_) => Ok(()),
        }
    }

    fn file(&self, number: u16) -> Result<(), Obstacle> {
        match self.node(number) {
            None => Err(Obstacle::NoFile),
            Some(node) if node.kind == Kind::Directory => Err(Obstacle::DirectoryAsFile),
            Some(_) => Ok(()),
        }
    }

    /// A file without names gives its number up.
    fn is_free(&self, number: u16) -> Result<(), Obstacle> {
        if number <= RESERVED {
            return Err(Obstacle::ReservedNumber);
        }
        match self.node(number) {
            Some(node) if node.kind == Kind::Directory || self.names_for(number) > 0 => {
                Err(Obstacle::TakenNumber)
            }
            _ => Ok(()),
        }
    }

    /// A directory may get this name.
    fn is_vacant(&self, link: &Link<'_>) -> Result<(), Obstacle> {
        self.directory(link.directory)?;
        if link.is_hidden() {
            return Err(Obstacle::HiddenName);
        }
        if self.object(link).is_some() {
            return Err(Obstacle::TakenName);
        }
        Ok(())
    }

    /// A node may lose a name.
    fn may_go(&self, node: &Node<'_>) -> Result<(), Obstacle> {
        if node.kind == Kind::Directory && !self.is_empty(node.number) {
            return Err(Obstacle::NotEmpty);
        }
        Ok(())
    }

    fn named(&self, link: &Link<'_>) -> Result<Node<'a>, Obstacle> {
        match self.object(link) {
            Some(node) => Ok(node),
            None => Err(Obstacle::NoName),
        }
    }

    /// A name may go.
    fn may_lose(&self, link: &Link<'_>) -> Result<(), Obstacle> {
        self.may_go(&self.named(link)?)
    }

    /// A node may get these attributes.
    fn may_set(&self, number: u16, attributes: &Attributes<'_>) -> Result<(), Obstacle> {
        match self.node(number) {
            Some(node) => fits(node.kind, attributes),
            None => Err(Obstacle::NoNode),
        }
    }

    /// A name may be moved. Two names of one object always may.
    fn may_move(&self, from: &Link<'_>, to: &Link<'_>) -> Result<(), Obstacle> {
        let moved = self.named(from)?;
        let there = self.object(to);
        if let Some(node) = there
            && node.number == moved.number
        {
            return Ok(());
        }
        self.directory(to.directory)?;
        if to.is_hidden() {
            return Err(Obstacle::HiddenName);
        }
        if moved.kind == Kind::Directory && self.is_at_or_below(moved.number, to.directory) {
            return Err(Obstacle::BelowItself);
        }
        match there {
            Some(node) if node.kind != moved.kind => Err(Obstacle::OtherKind),
            Some(node) => self.may_go(&node),
            None => Ok(()),
        }
    }

    /// What keeps a change from being applied, if anything does.
    pub fn test(&self, change: &Change<'_>) -> Result<(), Obstacle> {
        match change {
            Change::Make {
                link,
                number,
                kind,
                attributes,
            } => {
                let may_be = self.is_free(*number).and(self.is_vacant(link));
                may_be.and(fits(*kind, attributes))
            }
            Change::AddLink { link, number } => self.file(*number).and(self.is_vacant(link)),
            Change::Remove { link } => self.may_lose(link),
            Change::Rename { from, to } => self.may_move(from, to),
            Change::Write {
                number,
                offset,
                count,
            } => {
                let end = offset.saturating_add(*count);
                self.file(*number).and(is_within(end))
            }
            Change::SetSize { number, size } => self.file(*number).and(is_within(*size)),
            Change::SetAttributes { number, attributes } => self.may_set(*number, attributes),
        }
    }
}
