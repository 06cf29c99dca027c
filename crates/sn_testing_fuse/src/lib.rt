//! The messages of a mount in a form that people read and write, for the programs that test the libraries.
//!
//! A line is the name of the operation in the protocol, the node, `USER:GROUP` or `USER:GROUP:PROCESS`, and then the fields that are
//! read, in the order of the message: numbers in decimal, or in octal after `0o`, names with a slash before them, data as `x` and
//! hexadecimal digits, what is forgotten as `NODE:LOOKUPS`. A number in place of the name is an opcode, whose body is data.
//! A line of data alone is the bytes of a message.
//!
//! ```text
//! LOOKUP 1 1001:100 /name
//! MKDIR 1 1001:100 0o755 0o022 /new
//! WRITE 2 1001:100 9 0 0 x68656c6c6f
//! BATCH_FORGET 0 0:0 2:1 3:4
//! ```
//!
//! `message` makes the bytes of a line, by its own table of layouts (`layouts`), with 0xA5 in each byte that isn't read. `told`
//! makes the line of what was decoded. `answered` makes an answer of its line, as `ERROR ENOENT` or `WRITTEN 5`, and encodes it;
//! `short` has shorter lines for nodes (`FOUND 2 3 d0755 1 0:0 0`).
#![tactic(auto)]

mod answering;
mod errors;
mod layouts;
mod sending;
mod short;
mod telling;

pub use answering::answered;
pub use sending::message;
pub use telling::told;
