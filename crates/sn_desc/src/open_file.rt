ghost use Rattle.std.specs.Prelude.{◌≡◌, ◌↔◌, IsTrue};

use sn_walk::Home;

/// A file that is open: what open() makes and a descriptor denotes.
#[derive(Drop)]
pub struct OpenFile {
    pub home: Home,
    pub number: u16,
    pub readable: bool,
    pub writable: bool,
    /// Each write goes to the file's end.
    pub appends: bool,
    /// Where the next read or write begins.
    pub offset: u64,
}

impl OpenFile {
    /// Whether it is a file of this tree.
    pub(crate) fn is_in(&self, home: &Home) -> bool
        ensures { IsTrue result ↔ (self.now.home ≡ home.now) }
    {
        self.home == *home
    }
}
