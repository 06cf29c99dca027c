//! A call's first refusal or its outcome, over the sessions and any view of the trees, whose look-ups may fail.
//!
//! [`decide`] makes a call's tests in their order, as `sn_model` lists them. It answers the call's outcome, its first refusal, or
//! why there is neither: memory for its answer was refused, or the view found a fault. Both come only once session and arguments
//! have passed. Nothing is changed. The way through: `deciding` dispatches over all calls, by the groups of `groups`. Each call is decided in one
//! file, with the tests that calls share in `sn_core_decide_rules`; in the order of `docs/RULES.md`:
//!
//! | call | decided in |
//! |---|---|
//! | login, logout, sync, umask | `sessions` |
//! | mkdir | `sn_core_decide_names`, `mkdir` |
//! | chmod, chown | `sn_core_decide_access`, `setting` |
//! | stat, access, getacl | `sn_core_decide_access`, `asking` |
//! | setacl | `sn_core_decide_access`, `setting` |
//! | rmdir | `sn_core_decide_names`, `rmdir` |
//! | unlink | `sn_core_decide_names`, `unlink` |
//! | link | `sn_core_decide_names`, `link` |
//! | rename | `sn_core_decide_rename`, `rename` |
//! | readdir | `sn_core_decide_names`, `readdir` |
//! | snap-create, snap-delete, snap-restore, snap-list | `snapshots` |
//! | open | `sn_core_decide_files`, `open` |
//! | close | `sn_core_decide_files`, `descriptors` |
//! | read | `sn_core_decide_files`, `read` |
//! | write | `sn_core_decide_files`, `write` |
//! | seek, ftruncate | `sn_core_decide_files`, `descriptors` |
//!
//! What the sources leave open is decided in `docs/DECISIONS.md`, under "Decisions of calls".
//!
//! ```text
//! let outcome = decide(alloc, &mut view, &sessions, session, &call)?;
//! ```
#![tactic(auto)]

mod deciding;
mod groups;
mod sessions;
mod snapshots;

pub use deciding::decide;
