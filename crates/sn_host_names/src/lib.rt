//! Names of a mount as names of an image, both ways.
//!
//! A host name, which is a name of a mount, has any bytes but 0 and `/` (POSIX.1-2017, 3.170 Filename). An image name has
//! printable ASCII alone, as `sn_limits` says. So a byte that no image name has is kept as an escape, `%` and the byte's two
//! upper-case hexadecimal digits:
//!
//! | in a host name | in the image name |
//! |---|---|
//! | a byte 0x01 to 0x20 or 0x7F to 0xFF | `%XX` |
//! | a `%` before `XX`, the digits of such a byte, or before `25XX`, `2525XX` and so on | `%25` |
//! | any other byte | itself |
//!
//! No two host names have the same image name, and each name of an image is the image name of a host name. `%00`, `%2F`,
//! `%41` and `%7e` are no escapes: they are names like any other on both sides. `.` and `..` are a name on neither, and
//! `.snapshot` is itself on both. No call takes memory.
//!
//! The way through: `specs/Escapes.antt` has the image name of a host name, `names` the two functions, `escapes` what they read,
//! and `laws` what follows.
//!
//! What the sources leave open is decided in `docs/DECISIONS.md`, under "Names and attributes of a mount".
//!
//! ```text
//! let image = to_image(b"a b").unwrap(); // a%20b
//! let host = to_host(image.as_slice()); // a b
//! ```
#![tactic(auto)]

mod escapes;
mod laws;
mod names;

pub use laws::{image_names_are_distinct, image_names_are_spelled, names_have_host_names};
pub use names::{is_host_name, to_host, to_image};
