//! How a look beside the calls is written.

use anyhow::{Result, bail};
use sn_limits::{Kind, SnapshotName};
use sn_live_view::Known;
use sn_live_world::LookFault;
use sn_walk::{Attributes, Home, Object};
use std::alloc::Global;

/// The object that two words name: a tree, `live` or the name of a snapshot, and a number.
pub fn object_of(tree: &str, number: u16) -> Result<Object> {
    if tree == "live" {
        return Ok(Object::Node {
            home: Home::Live,
            number,
        });
    }
    let Some(snapshot) = SnapshotName::parse(tree.as_bytes()) else {
        bail!("no tree: {tree}");
    };
    Ok(Object::Node {
        home: Home::Frozen(snapshot),
        number,
    })
}

/// Tree, number, kind, names and bytes of what was found, or `none`, or why nothing was seen, with a line's end.
pub fn line_of_known(alloc: Global, known: &Result<Option<Known>, LookFault>) -> Result<String> {
    match known {
        Ok(Some(Known { object, attributes })) => {
            let tree = tree_of(object)?;
            let number = object.number();
            let rest = line_of_attributes(alloc, attributes)?;
            Ok(format!(in alloc; "{tree} {number} {rest}")?)
        }
        Ok(None) => Ok(String::from_str(alloc, "none\n")?),
        Err(fault) => line_of_fault(alloc, *fault),
    }
}

/// Kind, names and bytes of a node, or `none`, or why nothing was seen.
pub fn line_of_node(alloc: Global, node: &Result<Option<Attributes>, LookFault>) -> Result<String> {
    match node {
        Ok(Some(attributes)) => line_of_attributes(alloc, attributes),
        Ok(None) => Ok(String::from_str(alloc, "none\n")?),
        Err(fault) => line_of_fault(alloc, *fault),
    }
}

fn tree_of(object: &Object) -> Result<&str> {
    match object {
        Object::Node {
            home: Home::Live,
            ..
        } => Ok("live"),
        Object::Node {
            home: Home::Frozen(snapshot),
            ..
        } => Ok(str::from_utf8(snapshot.as_bytes())?),
        Object::Snapshots => Ok("snapshots"),
    }
}

fn line_of_attributes(alloc: Global, attributes: &Attributes) -> Result<String> {
    let kind = match attributes.kind {
        Kind::Directory => "d",
        Kind::File => "f",
    };
    let (links, size) = (attributes.links, attributes.size);
    Ok(format!(in alloc; "{kind} {links} {size}\n")?)
}

fn line_of_fault(alloc: Global, fault: LookFault) -> Result<String> {
    let word = match fault {
        LookFault::Memory => "memory\n",
        LookFault::Read => "read\n",
    };
    Ok(String::from_str(alloc, word)?)
}
