//! Times of a mount's objects as bytes, so that the next mount of the same image can have them: what the file `IMAGE.times` holds.
//!
//! | field | bytes |
//! |---|---|
//! | `snaptime` | 8 |
//! | version, 2 | u32 |
//! | size of the root's identity, at most 4,096 | u32 |
//! | the root's identity: times count only where it is the mounted one's | so many |
//! | at most 32 sections, to the checksum | |
//! | SHA-256 of all before | 32 |
//!
//! | field of a section | bytes |
//! |---|---|
//! | size of the name of a tree | u8 |
//! | name | so many |
//! | time of each object that has none of its own | 12 |
//! | how many objects have times of their own | u64 |
//! | their numbers and times, by rising numbers (`entry`) | 38 each |
//!
//! All numbers have their lowest byte first. The live tree has an empty name, and each other section that of a snapshot, in the order of their bytes. The root's identity
//! is the caller's.
//!
//! The model is [`Kept`](../specs/Kept.antt): the root's identity, and sections, each a name, a base and a finite map of times by numbers.
//! `spelling` is its one spelling. [`decode`] takes any bytes, and reads exactly what is the spelling of something: [`Writer`] writes such bytes, and
//! nothing else decodes. `specs/Keeping` says what a mount leaves of its times (`left_by`), and with which the next one begins (`begun`): [`keep`] and
//! [`restore`] are these, over bytes.
//!
//! The way through: `writer` and `reading` are the two ways, over `entry` and `checksum`; `saved` is what was read, and `fault` why something wasn't.
//! `keeping` decides which times are kept, and which of them count, and `laws` says that these are those that objects had.
//!
//! Memory: a [`Writer`] has the bytes, and for a moment twice where a section is added, and lends the times. [`decode`] has beside the bytes only
//! the times, in the form in which [`Times`](sn_times::Times) takes them.
//!
//! What the sources leave open is decided in `docs/DECISIONS.md`, under "The file of times".
//!
//! ```text
//! let bytes = keep(alloc, root, &times)?;
//! let times = restore(alloc, root, &bytes, now)?;
//! ```
#![tactic(auto)]

mod checksum;
mod entry;
mod fault;
mod keeping;
mod laws;
mod reading;
mod saved;
mod writer;

pub use fault::{Unreadable, Unwritable};
pub use keeping::{keep, restore};
pub use laws::times_laws;
pub use reading::decode;
pub use saved::{Saved, Section};
pub use writer::Writer;
