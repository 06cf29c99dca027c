//! What a server of a mount has of the system: messages that are read from `/dev/fuse`, replies that are written to it, what is told of
//! the processes that send them, and the time.
//!
//! The model. A mount that is gone, and a message or a reply that nobody waits for any longer, are told by errors of a read or a write
//! (fuse(4)). [`Requests`] and [`Replies`] take these for what they mean, which `read_of` and `written_of` say of each result of the system;
//! every other result they pass on. [`ThisHost`] and [`maps_all`] read files of `/proc`, of which no contract can say what they hold, and a clock.
//!
//! The way through: `requests`, `replies` and `host` have one of them each.
//!
//! What the sources leave open is decided in `docs/DECISIONS.md`, under "The command serve".
//!
//! ```text
//! let mut output = Replies::to(rt.stdout());
//! let (mut host, mut requests) = (ThisHost::new(&rt), Requests::of(&mut input));
//! let checker = Checker::Server { maps_all: maps_all(&rt) };
//! let served = serve_image(alloc, device, &mut host, checker, times, &mut requests, &mut output);
//! ```
#![tactic(auto)]

mod host;
mod replies;
mod requests;

pub use host::{ThisHost, maps_all};
pub use replies::Replies;
pub use requests::Requests;
