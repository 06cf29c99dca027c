//! What calls are and what they mean, without a word on how a file system keeps its data.
//!
//! `src/` has the types that the layers share: a call and an event, a reply and a refusal, and a
//! [`Change`], which is what a call decides and what is logged, applied and replayed. `specs/` has the
//! definitions that the theorems speak of. The way through them is this order:
//!
//! 1. `Tree`: nodes by number, and numbers by directory and name.
//! 2. `World`: the live tree, the frozen trees of snapshots, sessions and open files.
//! 3. `NameTree`: when a tree is a name tree, whole.
//! 4. `Changes`: what a change does to a tree, and when it can't be applied.
//! 5. `Settling`: files without names, and what a restart leaves of a world.
//! 6. `Covers`: what replay makes, against the live tree.
//! 7. `Tests`: the tests that calls are made of, each of which refuses or hands on what it found.
//! 8. `Outcomes` and `Calls`: each call as the list of its tests, and its outcome where all of
//!    them pass: a charge, a change, what becomes of the session, and the reply. `AccessCalls` has
//!    those that ask for rights and set them, `NameCalls` those on names and listings, `FileCalls` those on
//!    files and `Descriptors`, `SnapshotCalls` those on snapshots.
//! 9. `Steps`: what a call may answer and the world that it leaves, while nothing fails.
//! 10. `Machine`: a mount that runs, or one that a failure has stopped; what it answers to an event and
//!     the mishap of the event; runs, their ends, and lives of many crashes.
//! 11. `Worlds`, `Laws`, `AccessLaws`, `NameLaws`, `FileLaws`, `RestoreLaws`, `ChangeLaws` and `MachineLaws`: what follows from these in
//!     the subject's own words, each named by the contract of a function of `laws`.
//! 12. `Example`: the machine on one small world.
//! 13. `Texts`: how refusals, faults and their parts are printed.
//!
//! A call is added by a variant of [`Call`] and one equation each in `ready`, `TakesMemory`, `IsCall` and `path_of`;
//! `CONTRIBUTING.md` has all other places.
//!
//! What the sources leave open is decided in `docs/DECISIONS.md`, under "The model".
#![tactic(auto)]

mod argument;
mod call;
mod change;
mod end;
mod fault;
mod groups;
mod laws;
mod link;
mod lists;
mod moving;
mod outcome;
mod reply;
mod session;
mod text;
mod word;

pub use argument::{AclKind, ModeBits, NewAcl, OpenFlags};
pub use call::{Call, Event};
pub use change::{Bytes, Change, Ownership};
pub use end::End;
pub use fault::{Damage, MountFault};
pub use groups::Groups;
pub use laws::{
    access_calls_deny_by_rule, access_is_denied_by_rule, access_is_granted_by_rule,
    appends_go_to_the_end, changes_bring, changes_keep_covers, changes_keep_the_tree,
    chmod_sets_the_mode, chown_sets_owner_and_group, covered_settle_alike, covers_itself,
    covers_join, decided_changes_apply, decided_changes_pay, dropping_keeps_covers,
    dropping_keeps_the_tree, events_keep_the_state, example_holds, larger_limits_allow_as_much,
    link_gives_one_more_name, lists_join, lists_keep_covers, lists_keep_the_tree,
    lives_keep_the_world, makes_one_more, readdir_lists_the_names, reads_ask_for_no_right,
    reads_past_the_end_give_nothing, refusals_change_nothing, refused_events_change_nothing,
    rename_moves_the_name, restarts_settle, restores_bring_back, rmdir_takes_an_empty_directory,
    runs_keep_the_world, setacl_sets_one_acl, stopped_stays, test_is_below, umask_sets_the_mask,
    writes_of_nothing_do_nothing,
};
pub use link::Link;
pub use lists::{FileData, Names, StoredAcl};
pub use moving::Moving;
pub use outcome::{AskedPoint, Caller, Outcome, Pending};
pub use reply::{Access, Denial, Errno, FileStatus, PathNumber, Progress, Refusal, Reply, Rule};
pub use session::Session;
pub use word::Word;
