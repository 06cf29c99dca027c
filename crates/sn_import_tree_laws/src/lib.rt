//! What an import of an exported tree makes: laws, and no code that runs.
//!
//! The entries that an import reads of an archive that was exported are those of the tree (sn_archive_laws), and the calls of each make its
//! object (sn_import_laws). Here are all of them together: where nothing is reported, the calls, answered as the machine answers them,
//! make the tree that was exported below the directory that it goes into, and leave all else. So an export of that directory gives the
//! same archive.
//!
//! The way through: `specs/Copies.antt` has when a tree is another's copy below a number, `specs/Targets.antt` the directory that the archive goes
//! into and what stays beside it, `specs/Reports.antt` an import that reports nothing, and `specs/Laws.antt` the laws, which `laws` proves.
//!
//! What the sources leave open is decided in `docs/DECISIONS.md`, under "Archives as they are made".
#![tactic(auto)]

mod laws;

pub use laws::{
    copies_have_the_archive, imports_are_exported, tops_are_imported, trees_are_imported,
};
