//! What the calls of an import make: laws, and no code that runs.
//!
//! An import is a list of calls with their replies (sn_import_calls), and a call's meaning is a step from one world to another (`Step` of
//! sn_model). Here are the two together, for calls of the user 0 that let their entry go on: what the path of an entry's object leads to has
//! its rights, and everything else is as it was. Neither the code of an import nor that of a file system is spoken of.
//!
//! The way through: `specs/Runs.antt` has calls along worlds, `specs/Trees.antt` what becomes of a node, `specs/Rights.antt` the rights that
//! it gets, `specs/Contents.antt` a file that is written, `specs/Files.antt` a new one, `specs/Names.antt` a new
//! directory or a new name, `specs/Vacant.antt` where there is room for them, and `specs/Laws.antt` the laws, which `laws` proves.
//!
//! What the sources leave open is decided in `docs/DECISIONS.md`, under "Archives as they are made".
#![tactic(auto)]

mod laws;

pub use laws::{
    content_is_written, directories_are_imported, directories_get_owners, directories_get_rights,
    files_are_imported, files_are_made, files_get_rights, links_are_imported,
};
