//! An answer as the system reads it.
ghost use Rattle.std.specs.Prelude.{◌≡◌, ◌+◌, ◌^◌, ◌≤◌, ◌++◌, length, OnOk, OnErr};
ghost use Rattle.sn_bytes.specs.Bytes.{Puts};
ghost use Rattle.sn_fuse_replies.specs.Answer.{error_number, head_bytes, reply_bytes, tail_of};
ghost use Rattle.sn_fuse_replies.specs.Law.{RepliesDiffer};

use crate::answer::Answer;
use crate::numbers::put_fixed;
use sn_bytes::{put_u32, put_u64};
use std::alloc::AllocError;

// How many bytes the head of an answer has.
const HEAD_SIZE: usize = 16;

// The most bytes before data or a listing: those of an answer to CREATE.
const FRONT_MAX: usize = 160;

fn put_head(block: &mut [u8], size: u32, error: u32, unique: u64) -> usize
    requires { 16 ≤ length block.old }
    ensures bytes { Puts block.old block.new 0 result (head_bytes size error unique) }
    ensures next { result ≡ 16 }
{
    let at = put_u32(block, 0, size);
    let at = put_u32(block, at, error);
    put_u64(block, at, unique)
}

// The error negated, in two's complement.
fn error_of(answer: &Answer<'_>) -> u32
    ensures { result ≡ error_number answer.now }
{
    match answer {
        Answer::Error { errno } => u32::MAX - errno.number() + 1,
        _ => 0,
    }
}

fn tail_of<'a>(answer: &Answer<'a>) -> &'a [u8]
    ensures { result.now ≡ tail_of answer.now }
{
    match answer {
        Answer::Data { bytes } => bytes.as_bytes(),
        Answer::Listing { listed } => listed.as_bytes(),
        _ => &[],
    }
}

// Appends both, or nothing.
fn push(out: &mut Vec<u8>, front: &[u8], tail: &[u8]) -> Result<(), AllocError>
    ensures ok { OnOk result (out.new.items ≡ out.old.items ++ front.now ++ tail.now) }
    ensures err { OnErr result (out.new.items ≡ out.old.items) }
{
    let length = out.len();
    out.extend_from_slice(front)?;
    let pushed = out.extend_from_slice(tail);
    if pushed.is_err() {
        out.truncate(length);
    }
    pushed
}

/// Appends the one spelling of an answer to the message with this `unique`. Without memory for it the buffer stays as it was.
/// Of data and listings there are at most 2^31 bytes, which is far more than a message may ask for.
///
/// Proved: An answer is appended as its one spelling: the length, the error negated or 0, the given `unique`, and the body
/// of its kind, with each number in its place and all of its data; where memory is refused, the buffer is unchanged.
pub fn encode(out: &mut Vec<u8>, unique: u64, answer: &Answer<'_>) -> Result<(), AllocError>
    requires { length (tail_of answer.now) ≤ 2 ^ 31 }
    ensures ok { OnOk result (out.new.items ≡ out.old.items ++ reply_bytes unique answer.now) }
    ensures err { OnErr result (out.new.items ≡ out.old.items) }
{
    let mut block = [0; FRONT_MAX];
    let end = put_fixed(&mut block, HEAD_SIZE, answer);
    let tail = tail_of(answer);
    let size = (end + tail.len()) as u32;
    put_head(&mut block, size, error_of(answer), unique);
    push(out, &block[..end], tail)
}

/// Answers that are spelled alike are to one message, and are one, if they are of one kind.
///
/// Proved: Answers that are spelled alike are to one message, and are one, if they are of one kind.
pub fn replies_differ()
    ensures { RepliesDiffer }
{}
