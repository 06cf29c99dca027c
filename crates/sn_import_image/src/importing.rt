//! A mounted file system that answers the calls of an import, and writes its reports.
ghost use Rattle.std.specs.Prelude.{◌≡◌, IsTrue};
ghost use Rattle.sn_import_image.specs.Imports.{outcome_of};
ghost use Rattle.sn_model.specs.declared.end.End.{End as Ending};
ghost use Rattle.sn_serving.specs.Served.{Unmounts};

use crate::fault::{ImportFault, Made};
use crate::report::write_report;
use sn_core::{Call, Device, End, Reply};
use sn_import_run::{Calls, Why};
use sn_serving::Serving;
use std::io::Write;
use std::marker::Model;

// The session of an import.
const SESSION: u32 = 0;

/// A mounted file system, the output of reports, and whether there were any.
#[derive(Drop)]
pub(crate) struct Importing<D: Device + Drop, E: Write + Drop> {
    pub(crate) serving: Serving<D>,
    pub(crate) errors: E,
    pub(crate) is_told: bool,
}

impl<D: Device + Drop, E: Write + Drop> Model for Importing<D, E> {
    ghost use Rattle.std.specs.Coded.{codes};
    ghost use Rattle.std.specs.FinMap as map;
    ghost use Rattle.sn_import_image.specs.Importing.{Seen};

    ghost Value = { Seen E };

    ghost coded = { Prim.hlevel (codes, map.code) };

    ghost view = { λ s. (s.serving, s.errors, s.is_told) };
}

impl<D: Device + Drop, E: Write + Drop> Calls for Importing<D, E> {
    ghost use Rattle.sn_import_image.specs.Importing.{Did};

    ghost did = { Did D.tells_bytes };

    fn call(&mut self, call: &Call) -> Reply {
        let before = self.serving.room().log_left;
        let reply = self.serving.call(SESSION, call);
        if self.serving.room().log_left != before {
            self.serving.keep_pace();
        }
        reply
    }

    fn report(&mut self, entry: Option<u64>, name: &[u8], why: Why) {
        self.is_told = true;
        write_report(&mut self.errors, entry, name, why);
    }
}

/// What is told of an import once its mount is ended.
pub(crate) fn outcome_of(
    end: End,
    made: Result<(), ImportFault>,
    is_told: bool,
) -> Result<Made, ImportFault>
    ensures { result ≡ outcome_of end made is_told }
{
    match end {
        End::Clean => {}
        End::Memory => return Err(ImportFault::Memory),
        End::Stopped => return Err(ImportFault::Stopped),
        End::Mount(fault) => return Err(ImportFault::Mount(fault)),
    }
    made?;
    if is_told {
        Ok(Made::InPart)
    } else {
        Ok(Made::Whole)
    }
}
