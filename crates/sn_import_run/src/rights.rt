//! The rights of directories, after all entries.
ghost use Rattle.std.specs.Prelude.{◌≡◌, ◌++◌, List, Option};
ghost use Rattle.sn_import_calls.specs.Acts.{Act};
ghost use Rattle.sn_import_calls.specs.Carried.{Adds, stop_of};
ghost use Rattle.sn_import_run.specs.Imports as imports;
ghost use Rattle.sn_import_run.specs.Imports.{IsGranted, SetsRights};
ghost use Rattle.sn_import_calls.specs.declared.stop.Stop.{Stop as Ending};

use sn_import::{Closing, Object, order};
use sn_import_calls::{Calls, Stop, Why, close};
use std::alloc::Global;

// Sets the rights of a directory, and reports what stops that. Whether the import ends with it.
fn grant<C: Calls>(alloc: Global, to: &mut C, object: &Object) -> bool
    ensures { (stop : Option Ending) × (result ≡ imports.is_over stop)
        × Adds (C.did to.old) (C.did to.new) (λ acts. (own : List Act) × (acts ≡ own ++ imports.stop_told object.now stop) × IsGranted object.now own stop) }
{
    match close(alloc, to, object, Closing::Give) {
        Ok(()) => false,
        Err(stop) => {
            to.report(None, object.path.as_bytes(), Why::Stop(stop));
            stop.ends_import()
        }
    }
}

// Sets the rights of directories in this order, until one ends the import.
fn grant_all<C: Calls>(alloc: Global, to: &mut C, directories: &[Object])
    ensures { Adds (C.did to.old) (C.did to.new) (imports.AreGranted directories.now) }
{
    for object in directories {
        if grant(alloc, to, object) {
            return;
        }
    }
}

/// Sets the rights of directories, the deepest first.
pub fn set_rights<C: Calls>(alloc: Global, to: &mut C, mut directories: Vec<Object>)
    ensures { Adds (C.did to.old) (C.did to.new) (SetsRights directories.items) }
{
    match order(&mut directories) {
        Ok(()) => grant_all(alloc, to, directories.as_slice()),
        Err(_) => to.report(None, &[], Why::Stop(Stop::Memory)),
    }
}
