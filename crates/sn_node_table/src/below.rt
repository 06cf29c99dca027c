//! The known names below a node.
ghost use Rattle.std.specs.Prelude.{◌≡◌, ◌↔◌, IsTrue, OnOk, OnErr};
ghost use Rattle.std.specs.FinMap as map;

use sn_maps::NameMap;
use sn_model::Word;
use std::alloc::AllocError;

/// The ids of the names below a node. A file never has one, so the map is in a block of its own.
#[derive(Drop)]
pub(crate) struct NamesBelow {
    names: Option<Box<NameMap<u64>>>,
}

impl NamesBelow {
    ghost use Rattle.sn_node_table.specs.Stored.{names_below};

    /// No name. It allocates nothing.
    pub fn new() -> NamesBelow
        ensures { names_below result ≡ map.empty }
    {
        NamesBelow { names: None }
    }

    /// The id that a name leads to.
    pub fn get(&self, name: &[u8]) -> Option<u64>
        ensures { result ≡ map.get (names_below self.now) name.now }
    {
        match &self.names {
            Some(names) => names.get(name),
            None => None,
        }
    }

    /// Makes a name lead to an id.
    pub fn insert(&mut self, name: Word, id: u64) -> Result<(), AllocError>
        ensures ok { OnOk result (names_below self.new ≡ map.insert (names_below self.old) name id) }
        ensures err { OnErr result (names_below self.new ≡ names_below self.old) }
    {
        let name = name.into_bytes();
        match &mut self.names {
            Some(names) => names.insert(name, id),
            None => {
                let alloc = *name.allocator();
                let mut names = NameMap::new(alloc);
                names.insert(name, id)?;
                self.names = Some(Box::new(alloc, names)?);
                Ok(())
            }
        }
    }

    /// Removes a name.
    pub fn remove(&mut self, name: &[u8])
        ensures { names_below self.new ≡ map.remove (names_below self.old) name.now }
    {
        if let Some(names) = &mut self.names {
            names.remove(name);
        }
    }

    /// Whether no name is there.
    pub fn is_empty(&self) -> bool
        ensures { IsTrue result ↔ (names_below self.now ≡ map.empty) }
    {
        match &self.names {
            Some(names) => names.is_empty(),
            None => true,
        }
    }
}
