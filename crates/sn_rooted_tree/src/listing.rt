//! What walks learn of a node of a root's tree, bytes of a file, and the names of a directory as overlays list them.
ghost use Rattle.std.specs.Prelude.{◌≡◌, IfOk, map};
ghost use Rattle.sn_dir.specs.declared.listings.ListedName.{ListedName as TheName};
ghost use Rattle.sn_model.specs.Tree.{link_to};

use crate::RootedTree;
use crate::rooted::fault_of;
use sn_core_decide_rules::FileFault;
use sn_device::Device;
use sn_dir::ListedName;
use sn_live_files::HasContents;
use sn_model::Link;
use sn_rooted::{attributes, names, read};
use sn_tree_read::TreeFault;
use sn_walk::Attributes;
use std::alloc::{AllocError, Global};

// Names as those of a directory.
fn links_of(
    alloc: Global,
    directory: u16,
    names: Vec<ListedName>,
) -> Result<Vec<(Link, u16)>, AllocError>
    ensures { IfOk result (λ links. links.items ≡ map (λ (listed : TheName). (link_to directory listed.name, listed.number)) names.items) }
{
    let mut links = Vec::with_capacity(alloc, names.len())?;
    for listed in names {
        let ListedName { name, number } = listed;
        links.push((Link { directory, name }, number))?;
    }
    Ok(links)
}

impl<'a, D: Device> HasContents for RootedTree<'a, D> {
    fn attributes(&mut self, number: u16) -> Result<Option<Attributes>, TreeFault> {
        if let Some(fault) = self.fault {
            return Err(fault);
        }
        let answer = attributes(
            self.blocks,
            &self.root.limits,
            &self.root.inode_file,
            number,
        );
        self.fault = fault_of(&answer);
        answer
    }

    fn read(
        &mut self,
        alloc: Global,
        number: u16,
        offset: u64,
        most: usize,
    ) -> Result<Vec<u8>, FileFault<TreeFault>> {
        if let Some(fault) = self.fault {
            return Err(FileFault::View(fault));
        }
        let answer = read(
            alloc,
            self.blocks,
            &self.root.limits,
            &self.root.inode_file,
            number,
            offset,
            most,
        );
        self.fault = fault_of(&answer);
        match answer {
            Ok(bytes) => Ok(bytes),
            Err(fault) => Err(FileFault::View(fault)),
        }
    }

    fn names(
        &mut self,
        alloc: Global,
        directory: u16,
    ) -> Result<Vec<(Link, u16)>, FileFault<TreeFault>> {
        if let Some(fault) = self.fault {
            return Err(FileFault::View(fault));
        }
        let answer = names(
            alloc,
            self.blocks,
            &self.root.limits,
            &self.root.inode_file,
            directory,
        );
        self.fault = fault_of(&answer);
        match answer {
            Ok(names) => Ok(links_of(alloc, directory, names)?),
            Err(fault) => Err(FileFault::View(fault)),
        }
    }
}
