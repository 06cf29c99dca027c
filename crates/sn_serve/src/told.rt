//! What a message is answered with, until it is spelled.
ghost use Rattle.std.specs.Prelude.{◌≡◌, ◌++◌, ◌≤◌, ◌^◌, length, true, OnOk, OnErr};
ghost use Rattle.sn_fuse_replies.specs.Answer.{reply_bytes, tail_of};
ghost use Rattle.sn_fuse.specs.declared.operation.Time.{Time as TheTime};
ghost use Rattle.sn_serve.specs.Answers as answers;

use crate::entries::Entries;
use sn_fuse::{Data, Time};
use sn_fuse_replies::{
    Answer, Attributes, Entry, Errno, Initialized, Listing, Opened, Statistics, encode,
};
use sn_model::FileData;
use sn_plan::Checker;
use sn_serve_files::Created;
use sn_serve_looks::Xattr;
use sn_serve_names::{NO_TIME, YEAR};
use std::alloc::AllocError;

/// What a message is answered with where it is done.
#[derive(Drop)]
pub enum Told {
    /// It is done, and there is nothing to tell.
    Done,
    /// Of a name that was found or made.
    Found(Entry),
    /// What a node is like.
    Known(Attributes),
    /// An open file or directory.
    Handle(Opened),
    /// A file that was made and opened.
    Made(Created),
    /// The bytes that a READ gave.
    Content(FileData),
    /// How many bytes a WRITE wrote.
    Written(u32),
    Room(Statistics),
    Value(Xattr),
    Listed(Entries),
    /// What is taken of what INIT offered.
    Begun(Initialized),
}

/// The most bytes of data that an answer has. No read gives more than 65,536.
const DATA_MAX: usize = 1 << 20;

/// For how long the system may hold attributes: a year where it checks by them, since all that changes them comes from it; else not at all.
pub(crate) fn holds_for(checker: Checker) -> Time
    ensures { result ≡ answers.holds_for checker }
{
    match checker {
        Checker::Server { .. } => NO_TIME,
        Checker::System => YEAR,
    }
}

fn lasting(last: Time, entry: Entry) -> Entry
    ensures { result ≡ answers.lasting last entry }
{
    Entry {
        attributes_last: last,
        ..entry
    }
}

fn xattr_answer(xattr: &Xattr) -> Answer<'_>
    ensures { result ≡ answers.xattr_answer xattr.now }
{
    match xattr {
        Xattr::Bytes(bytes) => Answer::Data {
            bytes: Data::new(bytes.as_slice()),
        },
        Xattr::Size(size) => Answer::XattrSize { size: *size },
    }
}

fn answer_of(last: Time, told: &Told) -> Answer<'_>
    ensures { result ≡ answers.answer_of last told.now }
{
    match told {
        Told::Done => Answer::Nothing,
        Told::Found(entry) => Answer::Entry {
            entry: lasting(last, *entry),
        },
        Told::Known(attributes) => Answer::Attributes {
            last,
            attributes: *attributes,
        },
        Told::Handle(opened) => Answer::Opened { opened: *opened },
        Told::Made(created) => Answer::Created {
            entry: lasting(last, created.entry),
            opened: created.opened,
        },
        Told::Content(bytes) => Answer::Data {
            bytes: Data::new(bytes.as_bytes()),
        },
        Told::Written(count) => Answer::Written { count: *count },
        Told::Room(statistics) => Answer::Statistics {
            statistics: *statistics,
        },
        Told::Value(xattr) => xattr_answer(xattr),
        Told::Listed(entries) => Answer::Listing {
            listed: entries.listing.listed(),
        },
        Told::Begun(initialized) => Answer::Initialized {
            initialized: *initialized,
        },
    }
}

fn reply_of(last: Time, told: &Result<Told, Errno>) -> Answer<'_>
    ensures { result ≡ answers.reply_of last told.now }
{
    match told {
        Ok(told) => answer_of(last, told),
        Err(errno) => Answer::Error { errno: *errno },
    }
}

// A listing has no more bytes than there is room for.
fn is_small(entries: &Entries) -> bool
    ensures { length entries.now.listing.bytes ≤ 65536 }
{
    entries.listing.listed();
    true
}

// Whether all data fits. No read gives more than 65,536 bytes, and no listing has more.
fn told_fits(told: &Told) -> bool
    ensures { result ≡ true → (last : TheTime) → length (tail_of (answers.answer_of last told.now)) ≤ 2 ^ 31 }
{
    match told {
        Told::Content(bytes) => bytes.as_bytes().len() <= DATA_MAX,
        Told::Value(Xattr::Bytes(bytes)) => bytes.as_slice().len() <= DATA_MAX,
        Told::Listed(entries) => is_small(entries),
        Told::Done
        | Told::Found(_)
        | Told::Known(_)
        | Told::Handle(_)
        | Told::Made(_)
        | Told::Written(_)
        | Told::Room(_)
        | Told::Value(Xattr::Size(_))
        | Told::Begun(_) => true,
    }
}

fn fits(told: &Result<Told, Errno>) -> bool
    ensures { result ≡ true → (last : TheTime) → length (tail_of (answers.reply_of last told.now)) ≤ 2 ^ 31 }
{
    match told {
        Ok(told) => told_fits(told),
        Err(_) => true,
    }
}

/// Appends the reply of what is told, with how long attributes last. Without memory for it the buffer stays as it was; data of over a megabyte, which no read gives, are
/// refused in the same way.
pub(crate) fn encode_reply(
    out: &mut Vec<u8>,
    unique: u64,
    last: Time,
    told: &Result<Told, Errno>,
) -> Result<(), AllocError>
    ensures ok { OnOk result (out.new.items ≡ out.old.items ++ reply_bytes unique (answers.reply_of last told.now)) }
    ensures err { OnErr result (out.new.items ≡ out.old.items) }
{
    if !fits(told) {
        return Err(AllocError);
    }
    encode(out, unique, &reply_of(last, told))
}
