//! Times from one mount to the next.
ghost use Rattle.std.specs.Prelude.{◌≡◌, ◌≤◌, ◌++◌, [], ◌∷◌, length, IfOk, IfErr, OnOk};
ghost use Rattle.std.specs.FinMap as map;
ghost use Rattle.std.specs.List.{flat_map};
ghost use Rattle.sn_times.specs.Dates.{tree_of};
ghost use Rattle.sn_times_file.specs.Faults.{IsRefused};
ghost use Rattle.sn_times_file.specs.Keeping.{AreOf, AreSnapshots, IsRestored, begun, left_by, live_section, section_of, snapshots_of, with_live, with_section};
ghost use Rattle.sn_times_file.specs.Kept.{IsKept, IsNamed, IsTree, Kept, front_bytes, named_bytes, spelling};

use crate::checksum::are_equal;
use crate::fault::{Unreadable, Unwritable};
use crate::reading::decode;
use crate::saved::Section;
use crate::writer::Writer;
use sn_fuse::Time;
use sn_times::{FIRST_WAITING, Times, TreeTimes};
use std::alloc::{AllocError, Global};

/// The home of the live tree.
const LIVE: u64 = 0;

/// The most bytes of a name.
const NAME_MAX: usize = 255;

/// The most snapshots that an image can have.
const SNAPSHOTS_MAX: usize = 31;

// Writes the times of the live tree.
fn write_live(alloc: Global, writer: Writer, times: &Times) -> Result<Writer, Unwritable>
    ensures ok { IfOk result (λ new. new ≡ writer ++ named_bytes (live_section (tree_of times.now 0))) }
    ensures live { OnOk result (IsNamed (live_section (tree_of times.now 0))) }
    ensures err { IfErr result (λ fault. IsRefused (IsNamed (live_section (tree_of times.now 0))) fault) }
{
    match times.tree(LIVE) {
        Some(live) => writer.section(b"", live),
        None => writer.section(b"", &TreeTimes::new(alloc, times.base())),
    }
}

// Writes the times of a snapshot.
fn write_snapshot(
    alloc: Global,
    writer: Writer,
    times: &Times,
    name: &[u8],
) -> Result<Writer, Unwritable>
    ensures ok { IfOk result (λ new. new ≡ writer ++ named_bytes (section_of times.now name.now)) }
    ensures named { OnOk result (IsNamed (section_of times.now name.now)) }
    ensures err { IfErr result (λ fault. IsRefused (IsNamed (section_of times.now name.now)) fault) }
{
    if name.len() > NAME_MAX {
        return Err(Unwritable::Name);
    }
    match times.named(name) {
        Some(tree) => writer.section(name, tree),
        None => writer.section(name, &TreeTimes::new(alloc, times.base())),
    }
}

// Writes the times of all snapshots.
fn write_snapshots(alloc: Global, writer: Writer, times: &Times) -> Result<Writer, Unwritable>
    ensures ok { IfOk result (λ new. new ≡ writer ++ flat_map named_bytes (snapshots_of times.now)) }
    ensures snapshots { OnOk result (AreSnapshots (snapshots_of times.now)) }
    ensures err { IfErr result (λ fault. IsRefused (AreSnapshots (snapshots_of times.now)) fault) }
{
    let mut writer = writer;
    let mut room = SNAPSHOTS_MAX;
    for name in times.names() {
        if room == 0 {
            return Err(Unwritable::Snapshots);
        }
        writer = write_snapshot(alloc, writer, times, name.as_slice())?;
        room -= 1;
    }
    Ok(writer)
}

/// The bytes that keep times for the next mount of an image whose root has this identity: those of the live tree, under an empty name, and those of each
/// snapshot that is known, under its own. A home is a number of one mount, so none is kept.
///
/// Fails where memory is refused, a time has 10^9 nanoseconds or more, a name over 255 bytes, or there are over 31 snapshots.
pub fn keep(alloc: Global, root: &[u8], times: &Times) -> Result<Vec<u8>, Unwritable>
    requires { length root.now ≤ 4096 }
    ensures ok { IfOk result (λ bytes. bytes.items ≡ spelling (left_by root.now times.now)) }
    ensures fits { OnOk result (IsKept (left_by root.now times.now)) }
    ensures err { IfErr result (λ fault. IsRefused (IsKept (left_by root.now times.now)) fault) }
{
    let writer = write_live(alloc, Writer::new(alloc, root)?, times)?;
    let writer = write_snapshots(alloc, writer, times)?;
    Ok(writer.finish()?)
}

// Takes the times of a section, which wait at this home where they are of a snapshot.
fn take_section(times: &mut Times, home: u64, section: Section) -> Result<(), AllocError>
    ensures { OnOk result (times.new ≡ with_section times.old home section) }
{
    if section.name().is_empty() {
        return take_live(times, section.into_tree());
    }
    times.put_name(home, section.name())?;
    times.put_tree(home, section.into_tree())
}

// Takes the times of the live tree, where it has none.
fn take_live(times: &mut Times, tree: TreeTimes) -> Result<(), AllocError>
    ensures { OnOk result (times.new ≡ with_live times.old tree (map.get times.old.trees 0)) }
{
    if times.tree(LIVE).is_some() {
        return Ok(());
    }
    times.put_tree(LIVE, tree)
}

// The times with which a mount begins, where these sections count.
fn begin(alloc: Global, sections: Vec<Section>, now: Time) -> Result<Times, AllocError>
    requires { length sections.items ≤ 32 }
    ensures { IfOk result (λ times. times ≡ begun sections.items now) }
{
    let mut times = Times::new(alloc, now);
    let mut home = FIRST_WAITING;
    for section in sections {
        take_section(&mut times, home, section)?;
        home += 1;
    }
    Ok(times)
}

/// The times with which a mount begins at the time `now`, where the image's root has this identity, and these bytes were kept. They may be any bytes.
///
/// Fails where memory is refused.
///
/// Proved, also of `keep`: A mount begins with the times of the live tree that an earlier one kept, and of each snapshot that it knew, only where the root is
/// the one that was kept with them; else, and where the bytes keep no times, each object has the time of the mount.
pub fn restore(alloc: Global, root: &[u8], bytes: &[u8], now: Time) -> Result<Times, AllocError>
    ensures restored { IfOk result (λ times. IsRestored root.now bytes.now now times) }
    ensures counts { (kept : Kept) → AreOf root.now bytes.now kept → IfOk result (λ times. times ≡ begun kept.sections now) }
{
    let saved = match decode(alloc, bytes) {
        Ok(saved) => saved,
        Err(Unreadable::Memory) => return Err(AllocError),
        Err(Unreadable::Misspelt) => return Ok(Times::new(alloc, now)),
    };
    if !are_equal(saved.root(), root) {
        return Ok(Times::new(alloc, now));
    }
    begin(alloc, saved.into_sections(), now)
}
