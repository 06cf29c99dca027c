//! Bytes as every codec reads and writes them: numbers, zeros and lists of numbers, one after the
//! other.
//!
//! The model. A `Reader` is seen as the bytes that are left, and each `put_` call writes after the
//! one before: `Puts` says what is there then, and that nothing else changed. A number is
//! unsigned, its lowest byte first (`number_bytes`). `numbers_then` spells a record of numbers, each
//! of a width of its own.
//!
//! The way through: `reader`, `writer`. A codec of a record reads all its numbers first, without a
//! test between, and converts and tests them after: `proofs/Records.antt` then says once for all of
//! them that what was read is what is spelled.
//!
//! What the sources leave open is decided in `docs/DECISIONS.md`, under "The codecs".
//!
//! ```text
//! let mut reader = Reader::new(&block);
//! let generation = reader.u64();
//! let is_blank = reader.are_zeros(8);
//! ```
#![tactic(auto)]

mod reader;
mod writer;

pub use reader::Reader;
pub use writer::{put_bytes, put_u8, put_u16, put_u32, put_u32s, put_u64, put_zeros};
