ghost use Rattle.std.specs.Prelude.{◌≡◌};
ghost use Rattle.sn_limits.specs.Versions.{limits_of};

/// What a version of the format allows, and what its calls are charged.
#[derive(Clone, Copy, PartialEq, Eq)]
pub struct Limits {
    pub version: u32,
    /// The largest number of a node. The least is that of the root directory, 2.
    pub largest_number: u16,
    /// The most names of a directory.
    pub names: u32,
    /// The most names of a file.
    pub links: u16,
    /// The most bytes of a file.
    pub largest_file: u64,
    /// The most snapshots.
    pub snapshots: u8,
    /// The largest bit of a map word that a snapshot can have. The least is 1, since bit 0 is the live
    /// file system's.
    pub largest_bit: u8,
    /// How many levels of indirect blocks the largest files have.
    pub indirect_levels: u8,
    /// The blocks that a call is charged for each inode that it touches, and a file without names.
    pub inode_charge: u32,
    /// The blocks that a call is charged for each data block that it spans.
    pub block_charge: u32,
    /// The blocks that stay free for the calls that give room back.
    pub reserve: u32,
}

impl Limits {
    pub const VERSION_1: Limits = Limits {
        version: 1,
        largest_number: 65_535,
        names: 65_535,
        links: 32_767,
        largest_file: 67_108_864,
        snapshots: 20,
        largest_bit: 20,
        indirect_levels: 1,
        inode_charge: 8,
        block_charge: 2,
        reserve: 64,
    };

    pub const VERSION_2: Limits = Limits {
        version: 2,
        largest_number: 65_535,
        names: 65_535,
        links: 32_767,
        largest_file: 68_719_476_736,
        snapshots: 31,
        largest_bit: 31,
        indirect_levels: 2,
        inode_charge: 10,
        block_charge: 3,
        reserve: 64,
    };

    /// The limits that calls run under, and with which each new root is written.
    pub const WRITTEN: Limits = Limits::VERSION_2;

    /// The limits of a version that is read.
    ///
    /// Proved: The numbers are those of format versions 1 and 2, no other version is read, and calls run under those of
    /// version 2 (`Limits::WRITTEN`).
    pub fn of_version(version: u32) -> Option<Limits>
        ensures { result ≡ limits_of version }
    {
        match version {
            1 => Some(Limits::VERSION_1),
            2 => Some(Limits::VERSION_2),
            _ => None,
        }
    }
}
