//! Files that the tables of commands make.
//!
//! A line makes a file, or changes one:
//! - `NAME << LINE|LINE..`: a script of these lines, of which one may end in `HEX*COUNT` for so many such bytes;
//! - `NAME bytes HEX..`: these bytes, where `HEX*COUNT` is a byte so many times;
//! - `NAME from OTHER LENGTH`: the front of another file;
//! - `NAME with OTHER COUNT`: another file, and so many zeros after it;
//! - `NAME set OFFSET BYTE`: one byte anew, and `NAME put OFFSET HEX` several.
//!
//! No clause promises what comes out: `sn_tests_commands` and the tables beside it run on these files.
#![tactic(auto)]

mod making;

pub use making::make_file;
