//! The numbers of each answer, at an offset of a block. Each answers the offset after them.
ghost use Rattle.std.specs.Prelude.{◌≡◌, ◌+◌, ◌≤◌, length};
ghost use Rattle.sn_bytes.specs.Bytes.{Puts};
ghost use Rattle.sn_fuse_replies.specs.Answer.{attributes_bytes, count_bytes, created_bytes, entry_bytes, fixed_bytes, lasting_bytes, initialized_bytes, opened_bytes, owner_bytes, sizes_bytes, statistics_bytes, times_bytes};

use crate::answer::{Answer, Attributes, Entry, Initialized, Opened, Statistics};
use sn_bytes::{put_u16, put_u32, put_u64, put_zeros};
use sn_fuse::Time;

fn put_sizes(block: &mut [u8], at: usize, attributes: &Attributes) -> usize
    requires { at + 24 ≤ length block.old }
    ensures bytes { Puts block.old block.new at result (sizes_bytes attributes.now) }
    ensures next { result ≡ at + 24 }
{
    let at = put_u64(block, at, attributes.number);
    let at = put_u64(block, at, attributes.size);
    put_u64(block, at, attributes.blocks)
}

fn put_times(block: &mut [u8], at: usize, attributes: &Attributes) -> usize
    requires { at + 36 ≤ length block.old }
    ensures bytes { Puts block.old block.new at result (times_bytes attributes.now) }
    ensures next { result ≡ at + 36 }
{
    let at = put_u64(block, at, attributes.accessed.seconds);
    let at = put_u64(block, at, attributes.modified.seconds);
    let at = put_u64(block, at, attributes.changed.seconds);
    let at = put_u32(block, at, attributes.accessed.nanoseconds);
    let at = put_u32(block, at, attributes.modified.nanoseconds);
    put_u32(block, at, attributes.changed.nanoseconds)
}

fn put_owner(block: &mut [u8], at: usize, attributes: &Attributes) -> usize
    requires { at + 28 ≤ length block.old }
    ensures bytes { Puts block.old block.new at result (owner_bytes attributes.now) }
    ensures next { result ≡ at + 28 }
{
    let at = put_u32(block, at, attributes.mode);
    let at = put_u32(block, at, attributes.links);
    let at = put_u32(block, at, attributes.user);
    let at = put_u32(block, at, attributes.group);
    let at = put_u32(block, at, attributes.device);
    let at = put_u32(block, at, attributes.block_size);
    put_zeros(block, at, 4)
}

fn put_attributes(block: &mut [u8], at: usize, attributes: &Attributes) -> usize
    requires { at + 88 ≤ length block.old }
    ensures bytes { Puts block.old block.new at result (attributes_bytes attributes.now) }
    ensures next { result ≡ at + 88 }
{
    let at = put_sizes(block, at, attributes);
    let at = put_times(block, at, attributes);
    put_owner(block, at, attributes)
}

fn put_entry(block: &mut [u8], at: usize, entry: &Entry) -> usize
    requires { at + 128 ≤ length block.old }
    ensures bytes { Puts block.old block.new at result (entry_bytes entry.now) }
    ensures next { result ≡ at + 128 }
{
    let at = put_u64(block, at, entry.node);
    let at = put_u64(block, at, entry.generation);
    let at = put_u64(block, at, entry.name_lasts.seconds);
    let at = put_u64(block, at, entry.attributes_last.seconds);
    let at = put_u32(block, at, entry.name_lasts.nanoseconds);
    let at = put_u32(block, at, entry.attributes_last.nanoseconds);
    put_attributes(block, at, &entry.attributes)
}

fn put_opened(block: &mut [u8], at: usize, opened: &Opened) -> usize
    requires { at + 16 ≤ length block.old }
    ensures bytes { Puts block.old block.new at result (opened_bytes opened.now) }
    ensures next { result ≡ at + 16 }
{
    let at = put_u64(block, at, opened.handle);
    let at = put_u32(block, at, opened.flags);
    put_zeros(block, at, 4)
}

fn put_statistics(block: &mut [u8], at: usize, statistics: &Statistics) -> usize
    requires { at + 80 ≤ length block.old }
    ensures bytes { Puts block.old block.new at result (statistics_bytes statistics.now) }
    ensures next { result ≡ at + 80 }
{
    let at = put_u64(block, at, statistics.blocks);
    let at = put_u64(block, at, statistics.free);
    let at = put_u64(block, at, statistics.available);
    let at = put_u64(block, at, statistics.files);
    let at = put_u64(block, at, statistics.free_files);
    let at = put_u32(block, at, statistics.block_size);
    let at = put_u32(block, at, statistics.name_length);
    let at = put_u32(block, at, statistics.fragment_size);
    put_zeros(block, at, 28)
}

fn put_initialized(block: &mut [u8], at: usize, initialized: &Initialized) -> usize
    requires { at + 64 ≤ length block.old }
    ensures bytes { Puts block.old block.new at result (initialized_bytes initialized.now) }
    ensures next { result ≡ at + 64 }
{
    let at = put_u32(block, at, initialized.major);
    let at = put_u32(block, at, initialized.minor);
    let at = put_u32(block, at, initialized.readahead);
    let at = put_u32(block, at, initialized.flags.0);
    let at = put_u16(block, at, initialized.background);
    let at = put_u16(block, at, initialized.congestion);
    let at = put_u32(block, at, initialized.write);
    let at = put_u32(block, at, initialized.time_granularity);
    let at = put_u16(block, at, initialized.pages);
    put_zeros(block, at, 34)
}

fn put_lasting(block: &mut [u8], at: usize, last: &Time, attributes: &Attributes) -> usize
    requires { at + 104 ≤ length block.old }
    ensures bytes { Puts block.old block.new at result (lasting_bytes last.now attributes.now) }
    ensures next { result ≡ at + 104 }
{
    let at = put_u64(block, at, last.seconds);
    let at = put_u32(block, at, last.nanoseconds);
    let at = put_zeros(block, at, 4);
    put_attributes(block, at, attributes)
}

fn put_created(block: &mut [u8], at: usize, entry: &Entry, opened: &Opened) -> usize
    requires { at + 144 ≤ length block.old }
    ensures bytes { Puts block.old block.new at result (created_bytes entry.now opened.now) }
    ensures next { result ≡ at + 144 }
{
    let at = put_entry(block, at, entry);
    put_opened(block, at, opened)
}

fn put_count(block: &mut [u8], at: usize, count: u32) -> usize
    requires { at + 8 ≤ length block.old }
    ensures bytes { Puts block.old block.new at result (count_bytes count) }
    ensures next { result ≡ at + 8 }
{
    let at = put_u32(block, at, count);
    put_zeros(block, at, 4)
}

// What an answer's body has before its data or its listing.
pub(crate) fn put_fixed(block: &mut [u8], at: usize, answer: &Answer<'_>) -> usize
    requires { at + 144 ≤ length block.old }
    ensures bytes { Puts block.old block.new at result (fixed_bytes answer.now) }
    ensures within { result ≤ at + 144 }
{
    match answer {
        Answer::Error { .. } | Answer::Nothing | Answer::Data { .. } | Answer::Listing { .. } => at,
        Answer::Entry { entry } => put_entry(block, at, entry),
        Answer::Attributes { last, attributes } => put_lasting(block, at, last, attributes),
        Answer::Opened { opened } => put_opened(block, at, opened),
        Answer::Created { entry, opened } => put_created(block, at, entry, opened),
        Answer::Written { count } => put_count(block, at, *count),
        Answer::XattrSize { size } => put_count(block, at, *size),
        Answer::Statistics { statistics } => put_statistics(block, at, statistics),
        Answer::Initialized { initialized } => put_initialized(block, at, initialized),
    }
}
