ghost use Rattle.std.specs.Prelude.{◌≡◌, IfOk, OnOk, OnErr, None};
ghost use Rattle.std.specs.FinMap as map;

use sn_maps::NameMap;
use sn_model::{Link, Word};
use std::alloc::{AllocError, Global};
use std::collections::BTreeMap;

/// The names of a directory, in the order of their bytes.
fn words_of(alloc: Global, names: &NameMap<u16>) -> Result<Vec<Word>, AllocError>
    ensures { IfOk result (λ words. words.items ≡ map.keys names.now) }
{
    let mut words = Vec::new(alloc);
    for name in names.names() {
        words.push(Word::new(alloc, name.as_slice())?)?;
    }
    Ok(words)
}

/// The numbers by directory and name. A directory without names isn't there.
///
/// Proved: The names in memory are the model's one finite map of links: a lent one is looked up as it is, and those of a
/// directory are listed in the order of their bytes.
#[derive(Drop)]
pub struct Links {
    directories: BTreeMap<u16, NameMap<u16>>,
    alloc: Global,
}

impl Links {
    ghost use Rattle.sn_model.specs.Tree.{link_to};
    ghost use Rattle.sn_nodes.specs.Names.{names_at};
    ghost use Rattle.sn_nodes.specs.Stored.{directories_of, links_of};

    /// No link. It takes no memory.
    pub fn new(alloc: Global) -> Links
        ensures { links_of result ≡ map.empty }
    {
        Links {
            directories: BTreeMap::new(alloc),
            alloc,
        }
    }

    /// The number of a name that is lent.
    pub fn named(&self, directory: u16, name: &[u8]) -> Option<u16>
        ensures { result ≡ map.get (links_of self.now) (link_to directory name.now) }
    {
        self.directories.get(&directory)?.get(name)
    }

    /// The number that a link leads to.
    pub fn get(&self, link: &Link) -> Option<u16>
        ensures { result ≡ map.get (links_of self.now) link.now }
    {
        self.named(link.directory, link.name.as_bytes())
    }

    /// The names of a directory, in the order of their bytes.
    pub fn names(&self, alloc: Global, directory: u16) -> Result<Vec<Word>, AllocError>
        ensures { IfOk result (λ words. words.items ≡ map.keys (names_at (map.get (directories_of self.now) directory))) }
    {
        match self.directories.get(&directory) {
            Some(names) => words_of(alloc, names),
            None => Ok(Vec::new(alloc)),
        }
    }

    /// Gives a directory that has no names its first one.
    fn insert_first(&mut self, directory: u16, name: Word, number: u16) -> Result<(), AllocError>
        requires { map.get (directories_of self.old) directory ≡ None }
        ensures ok { OnOk result (links_of self.new ≡ map.insert (links_of self.old) (link_to directory name) number) }
        ensures err { OnErr result (links_of self.new ≡ links_of self.old) }
    {
        let mut names = NameMap::new(self.alloc);
        names.insert(name.into_bytes(), number)?;
        self.directories.insert(directory, names)?;
        Ok(())
    }

    /// Gives a name a number.
    pub fn insert(&mut self, link: Link, number: u16) -> Result<(), AllocError>
        ensures ok { OnOk result (links_of self.new ≡ map.insert (links_of self.old) link number) }
        ensures err { OnErr result (links_of self.new ≡ links_of self.old) }
    {
        let Link { directory, name } = link;
        match self.directories.get_mut(&directory) {
            Some(names) => names.insert(name.into_bytes(), number),
            None => self.insert_first(directory, name, number),
        }
    }

    /// Takes a name out of its directory, which may be left without names.
    fn take(&mut self, link: &Link)
        ensures { links_of self.new ≡ map.remove (links_of self.old) link.now }
    {
        if let Some(names) = self.directories.get_mut(&link.directory) {
            names.remove(link.name.as_bytes());
        }
    }

    /// Frees what is kept for a directory that is left without names.
    fn forget(&mut self, directory: u16)
        ensures { links_of self.new ≡ links_of self.old }
    {
        if let Some(names) = self.directories.get(&directory)
            && names.is_empty()
        {
            self.directories.remove(&directory);
        }
    }

    /// Takes a link out, if it is there.
    pub fn remove(&mut self, link: &Link)
        ensures { links_of self.new ≡ map.remove (links_of self.old) link.now }
    {
        self.take(link);
        self.forget(link.directory);
    }
}
