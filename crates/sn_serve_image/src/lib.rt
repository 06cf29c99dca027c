//! `snapfs serve`: an image is mounted, and the messages of a mount are answered until it is gone.
//!
//! The model. `IsServed` (`specs/Serves`) says that the messages of the input were answered as `sn_serve_loop` does, and that the calls that were
//! made for them, with steps of consistency points between them, are a run of the machine from the world that the disk was an image of. So what a crash
//! leaves of a serve is what it leaves of that run: what was answered, and perhaps a front of the calls of the message in flight.
//!
//! The way through: `image` mounts, has the messages answered, and unmounts, and `fault` says why a serve failed.
//!
//! What the sources leave open is decided in `docs/DECISIONS.md`, under "Serving an image".
//!
//! ```text
//! let served = serve_image(alloc, device, &mut host, checker, times, &mut input, &mut output);
//! ```
#![tactic(auto)]

mod fault;
mod image;

pub use fault::ServeFault;
pub use image::{Served, serve_image};
