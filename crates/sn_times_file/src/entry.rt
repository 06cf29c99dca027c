//! | offset | field of an entry |
//! |---|---|
//! | 0 | number of the object in its tree u16 |
//! | 2 | access time |
//! | 14 | modification time |
//! | 26 | change time |
//!
//! | offset | field of a time |
//! |---|---|
//! | 0 | seconds since 1970 began u64 |
//! | 8 | nanoseconds, below 10^9 u32 |
ghost use Rattle.std.specs.Prelude.{◌≡◌, ℕ, ◌+◌, ◌^◌, ◌<◌, ◌≤◌, List, ◌++◌, length, Some, IfSome, IsTrue, ◌↔◌};
ghost use Rattle.sn_bytes.specs.Bytes.{Puts};
ghost use Rattle.sn_fuse.specs.declared.operation.Time.{Time as TheTime};
ghost use Rattle.sn_times.specs.declared.stamps.Stamps.{Stamps as TheStamps};
ghost use Rattle.sn_times_file.specs.Kept.{IsEntry, IsTime, entry_bytes, time_bytes};

use sn_bytes::{Reader, put_u16, put_u32, put_u64};
use sn_fuse::Time;
use sn_times::Stamps;

/// Bytes of a time.
pub(crate) const TIME_SIZE: usize = 12;

/// Bytes of an entry.
pub(crate) const ENTRY_SIZE: usize = 38;

/// Nanoseconds of a second.
const SECOND: u32 = 1_000_000_000;

/// Whether it has fewer nanoseconds than a second.
pub(crate) fn is_time(time: Time) -> bool
    ensures { IsTrue result ↔ IsTime time }
{
    time.nanoseconds < SECOND
}

/// Whether all three times have.
pub(crate) fn is_entry(number: u16, stamps: Stamps) -> bool
    ensures { IsTrue result ↔ IsEntry (number, stamps) }
{
    is_time(stamps.accessed) && is_time(stamps.modified) && is_time(stamps.changed)
}

fn put_time(block: &mut [u8], at: usize, time: Time) -> usize
    requires { at + 12 ≤ length block.old }
    ensures bytes { Puts block.old block.new at result (time_bytes time) }
    ensures next { result ≡ at + 12 }
{
    let at = put_u64(block, at, time.seconds);
    put_u32(block, at, time.nanoseconds)
}

/// The bytes of a time.
pub(crate) fn time_record(time: Time) -> [u8; TIME_SIZE]
    ensures { result ≡ time_bytes time }
{
    let mut record = [0; TIME_SIZE];
    put_time(&mut record, 0, time);
    record
}

/// The bytes of an entry.
pub(crate) fn entry_record(number: u16, stamps: Stamps) -> [u8; ENTRY_SIZE]
    ensures { result ≡ entry_bytes (number, stamps) }
{
    let mut record = [0; ENTRY_SIZE];
    let at = put_u16(&mut record, 0, number);
    let at = put_time(&mut record, at, stamps.accessed);
    let at = put_time(&mut record, at, stamps.modified);
    put_time(&mut record, at, stamps.changed);
    record
}

/// The next time, which may have more nanoseconds than a second.
pub(crate) fn read_time(reader: &mut Reader<'_>) -> Time
    requires { 12 ≤ length reader.old }
    ensures read { reader.old ≡ time_bytes result ++ reader.new }
    ensures only { (time : TheTime) (rest : List ℕ) → IsTime time → reader.old ≡ time_bytes time ++ rest → (result ≡ time) × (reader.new ≡ rest) }
    ensures left { length reader.new + 12 ≡ length reader.old }
{
    Time {
        seconds: reader.u64(),
        nanoseconds: reader.u32(),
    }
}

/// The next entry.
pub(crate) fn read_entry(reader: &mut Reader<'_>) -> Option<(u16, Stamps)>
    ensures found { IfSome result (λ entry. IsEntry entry × (reader.old ≡ entry_bytes entry ++ reader.new)) }
    ensures only { (entry : ℕ × TheStamps) (rest : List ℕ) → IsEntry entry → reader.old ≡ entry_bytes entry ++ rest → (result ≡ Some entry) × (reader.new ≡ rest) }
{
    if reader.remaining() < ENTRY_SIZE {
        return None;
    }
    let number = reader.u16();
    let stamps = Stamps {
        accessed: read_time(reader),
        modified: read_time(reader),
        changed: read_time(reader),
    };
    if !is_entry(number, stamps) {
        return None;
    }
    Some((number, stamps))
}
