//! Times in what is told.
ghost use Rattle.std.specs.Prelude.{◌≡◌};
ghost use Rattle.sn_serve.specs.Dating as dating;

use crate::told::Told;
use sn_fuse_replies::{Attributes, Entry, Errno};
use sn_serve_files::Created;
use sn_times::Times;

fn date_attributes(times: &Times, attributes: &Attributes) -> Attributes
    ensures { result ≡ dating.dated_attributes times.now attributes.now }
{
    let stamps = times.stamps(attributes.number);
    Attributes {
        accessed: stamps.accessed,
        modified: stamps.modified,
        changed: stamps.changed,
        ..*attributes
    }
}

fn date_entry(times: &Times, entry: &Entry) -> Entry
    ensures { result ≡ dating.dated_entry times.now entry.now }
{
    Entry {
        attributes: date_attributes(times, &entry.attributes),
        ..*entry
    }
}

fn date_told(times: &Times, told: Told) -> Told
    ensures { result ≡ dating.dated times.now told }
{
    match told {
        Told::Found(entry) => Told::Found(date_entry(times, &entry)),
        Told::Known(attributes) => Told::Known(date_attributes(times, &attributes)),
        Told::Made(created) => Told::Made(Created {
            entry: date_entry(times, &created.entry),
            opened: created.opened,
        }),
        other => other,
    }
}

/// What is told, with the times of what it tells of.
pub(crate) fn date(times: &Times, told: Result<Told, Errno>) -> Result<Told, Errno>
    ensures { result ≡ dating.dated_in times.now told }
{
    match told {
        Ok(told) => Ok(date_told(times, told)),
        Err(errno) => Err(errno),
    }
}
