//! What an answer tells of a node.
ghost use Rattle.std.specs.Prelude.{◌≡◌, ◌≤◌};
ghost use Rattle.sn_serve_names.specs.Entries as entries;

use sn_fuse::Time;
use sn_fuse_replies::{Attributes, Entry};
use sn_limits::Kind;
use sn_model::FileStatus;

/// S_IFDIR and S_IFREG of <sys/stat.h>.
const DIRECTORY_BITS: u32 = 0x4000;

const FILE_BITS: u32 = 0x8000;

const SET_GID: u32 = 1024;

const STICKY: u32 = 512;

/// The time 0, of what may not be held, and of an object until the answer puts in those that are kept (`sn_serve`).
pub const NO_TIME: Time = Time {
    seconds: 0,
    nanoseconds: 0,
};

/// For how long the system may hold a name: a year. How long it may hold attributes is said where the answer is spelled.
pub const YEAR: Time = Time {
    seconds: 31_536_000,
    nanoseconds: 0,
};

fn kind_bits(kind: Kind) -> u32
    ensures value { result ≡ entries.kind_bits kind }
    ensures within { result ≤ 0x8000 }
{
    match kind {
        Kind::Directory => DIRECTORY_BITS,
        Kind::File => FILE_BITS,
    }
}

/// `st_mode`.
fn mode_bits(status: &FileStatus) -> u32
    ensures { result ≡ entries.mode_bits status.now }
{
    let set_gid = if status.set_gid { SET_GID } else { 0 };
    let sticky = if status.sticky { STICKY } else { 0 };
    kind_bits(status.kind) + set_gid + sticky + u32::from(status.mode.bits())
}

/// The attributes of an object with this number, as the mount shows it. Times are 0: the file system has none, and who answers
/// puts in those that are kept (`sn_serve`).
pub fn attributes_of(number: u64, status: &FileStatus) -> Attributes
    ensures { result ≡ entries.attributes_of number status.now }
{
    Attributes {
        number,
        size: status.size,
        blocks: status.size.div_ceil(512),
        accessed: NO_TIME,
        modified: NO_TIME,
        changed: NO_TIME,
        mode: mode_bits(status),
        links: u32::from(status.links),
        user: status.owner,
        group: status.group,
        device: 0,
        block_size: 4096,
    }
}

/// What LOOKUP and the messages that make a name answer: the id, and the attributes of the object.
pub fn entry_of(id: u64, number: u64, status: &FileStatus) -> Entry
    ensures { result ≡ entries.entry_of id number status.now }
{
    Entry {
        node: id,
        generation: 0,
        name_lasts: YEAR,
        attributes_last: NO_TIME,
        attributes: attributes_of(number, status),
    }
}
