//! The payload of a log record: a change and its one spelling, both ways, without a device and
//! without memory.
//!
//! A payload begins with a byte that says the kind of change, and ends with the change's last field.
//! `payload_bytes` in `specs/` is the spelling, in the order of the fields, and `IsSpelled` says which
//! changes have one. [`put_change`] writes exactly it, a [`Payload`] has the number of its bytes, and
//! [`decode`] answers a change exactly where bytes are its spelling: `found` says that the bytes are
//! the change's spelling, and `only` that each change with a spelling is read from it. The names and
//! the written bytes of what is decoded are lent from the payload. `payloads_fit` and
//! `payloads_differ` are laws of the spelling, for whoever reasons about records as bytes.
//!
//! The way through: `payload` chooses by the kind, `links` has the changes of names, `contents` those
//! of a file's bytes, `attributes` those that give a node its owner and its ACLs, over `ownership`.
//!
//! What the sources leave open is decided in `docs/DECISIONS.md`, under "The log".
//!
//! ```text
//! let end = put_change(&mut body, 16, &change);
//! let change = decode(&body[16..end])?;
//! ```
#![tactic(auto)]

mod attributes;
mod contents;
mod links;
mod ownership;
mod payload;

pub use contents::WRITE_MAX;
pub use payload::{PAYLOAD_MAX, Payload, decode, payloads_differ, payloads_fit, put_change};
