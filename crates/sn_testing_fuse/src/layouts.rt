//! The layouts of messages, as `linux/fuse.h` has them.

use anyhow::{Result, bail};
use sn_testing_tables::number_of;

// An operation, its opcode, and a letter for each field.
const LAYOUTS: [(&str, u32, &str); 32] = [
    ("LOOKUP", 1, "n"),
    ("FORGET", 2, "q"),
    ("GETATTR", 3, "wgq"),
    ("SETATTR", 4, "wgqqggqqggwwgwgwwg"),
    ("SYMLINK", 6, "nn"),
    ("MKNOD", 8, "wwwgn"),
    ("MKDIR", 9, "wwn"),
    ("UNLINK", 10, "n"),
    ("RMDIR", 11, "n"),
    ("RENAME", 12, "qnn"),
    ("LINK", 13, "qn"),
    ("OPEN", 14, "wg"),
    ("READ", 15, "qqwggggg"),
    ("WRITE", 16, "qqswggggd"),
    ("STATFS", 17, ""),
    ("RELEASE", 18, "qgggg"),
    ("FSYNC", 20, "qwg"),
    ("SETXATTR", 21, "swnd"),
    ("GETXATTR", 22, "wgn"),
    ("LISTXATTR", 23, "wg"),
    ("REMOVEXATTR", 24, "n"),
    ("FLUSH", 25, "qgggg"),
    ("INIT", 26, "wwww"),
    ("OPENDIR", 27, "wg"),
    ("READDIR", 28, "qqwggggg"),
    ("RELEASEDIR", 29, "qgggg"),
    ("FSYNCDIR", 30, "qwg"),
    ("ACCESS", 34, "wg"),
    ("CREATE", 35, "wwwgn"),
    ("INTERRUPT", 36, "q"),
    ("BATCH_FORGET", 42, "cgp"),
    ("RENAME2", 45, "qwgnn"),
];

/// The opcode of an operation, by its name or as a number, and its layout: that of a number is data alone. A layout has a letter for each field: `w` a number of four bytes, `q` one of eight, `g`
/// four bytes that aren't read, `s` the size of the data in four bytes, `c` how many pairs there are in four bytes, `n` a
/// name, `d` data, `p` pairs.
pub(crate) fn layout_of(word: &str) -> Result<(u32, &'static str)> {
    for (name, opcode, layout) in LAYOUTS {
        if name == word {
            return Ok((opcode, layout));
        }
    }
    Ok((number_of(word)?, "d"))
}

/// The operation that has an opcode.
pub(crate) fn word_of(opcode: u32) -> Result<&'static str> {
    for (name, number, _layout) in LAYOUTS {
        if number == opcode {
            return Ok(name);
        }
    }
    bail!("no opcode: {opcode}")
}
