/// What is wrong with a disk that can't be mounted. A root's tree is that of its inode file.
#[derive(Clone, Copy, Debug, PartialEq, Eq, Hash)]
pub enum Damage {
    /// C1: a root body is misspelt, or two roots have one generation.
    Root,
    /// C2: a pointer leads out of the data area.
    Pointer,
    /// C3: a root reaches a block twice.
    ReachedTwice,
    /// C4: a word of the map isn't the set of roots that reach its block.
    MapWord,
    /// C5: a block spells no value of its kind, or a rule of block trees is broken.
    Misspelt,
    /// C6: names and nodes don't make a tree, or a count of names is wrong.
    Links,
    /// C7: a log record is misspelt or can't be applied, or the records don't fit.
    Log,
}

/// Why there is no mount.
#[derive(Clone, Copy, Debug, PartialEq, Eq, Hash)]
pub enum MountFault {
    /// M1: the device isn't formatted.
    NotFormatted,
    /// M2: the format is of a version that isn't known.
    Version,
    /// M3: no root is open.
    NoRoot,
    /// M4: what is wrong, and the block where it is, or, for C2, the pointer.
    Damaged { damage: Damage, block: u32 },
    /// M5: memory was refused.
    Memory,
    /// M6: the device failed.
    Device,
}
