//! A message: its head and what it asks for.
ghost use Rattle.std.specs.Prelude.{◌≡◌, ◌↔◌, ℕ, ◌+◌, ◌≤◌, List, length, IfSome, IsNone};
ghost use Rattle.sn_fuse.specs.Body.{Data, Spells};
ghost use Rattle.sn_fuse.specs.Message.{Frames, IsAnswer, IsMisspelt, IsRequest, IsShort, IsUnknown, RequestsDiffer, head_fields};
ghost use Rattle.sn_fuse.specs.declared.message.Head.{Head as TheHead};
ghost use Rattle.sn_fuse.specs.declared.message.Decoded.TheVariants.{Short, Unknown, Misspelt, Request};
ghost use Rattle.sn_fuse.specs.declared.operation.Op.{Op as TheOp};

use crate::body::read_body;
use crate::opcode::Opcode;
use crate::operation::Op;
use sn_bytes::Reader;

/// How many bytes a head has.
pub const HEAD_SIZE: usize = 40;

/// What each message begins with: which it is, and who asks.
#[derive(Clone, Copy, PartialEq, Eq, Debug)]
pub struct Head {
    /// How many bytes the message has, with the head.
    pub length: u32,
    pub opcode: u32,
    /// What the answer repeats.
    pub unique: u64,
    pub node: u64,
    pub user: u32,
    pub group: u32,
    pub process: u32,
}

/// What bytes say.
#[derive(Drop)]
pub enum Decoded<'a> {
    /// No head, or one whose length the bytes don't have: they can't even be answered.
    Short,
    /// An opcode that isn't known here.
    Unknown { head: Head },
    /// A body that spells no request of its opcode.
    Misspelt { head: Head },
    Request { head: Head, op: Op<'a> },
}

fn read_head(reader: &mut Reader<'_>) -> Head
    requires { 40 ≤ length reader.old }
    ensures spelled { Spells (head_fields result) (Data reader.new) reader.old }
    ensures left { length reader.new + 40 ≡ length reader.old }
{
    let length = reader.u32();
    let opcode = reader.u32();
    let unique = reader.u64();
    let node = reader.u64();
    let user = reader.u32();
    let group = reader.u32();
    let process = reader.u32();
    reader.bytes(4);
    Head {
        length,
        opcode,
        unique,
        node,
        user,
        group,
        process,
    }
}

// The head, and the body by its length; `None` where the bytes have no such length.
fn read_frame(bytes: &[u8]) -> Option<(Head, &[u8])>
    ensures found { IfSome result (λ frame. Frames bytes.now frame.0 frame.1.now) }
    ensures none { IsNone result → IsShort bytes.now }
{
    let mut reader = Reader::new(bytes);
    if reader.remaining() < HEAD_SIZE {
        return None;
    }
    let head = read_head(&mut reader);
    let length = head.length as usize;
    if length < HEAD_SIZE || length > bytes.len() {
        return None;
    }
    Some((head, reader.bytes(length - HEAD_SIZE)))
}

fn answer_to(bytes: &[u8]) -> Decoded<'_>
    ensures { IsAnswer bytes.now result }
{
    let Some((head, body)) = read_frame(bytes) else {
        return Decoded::Short;
    };
    let Some(opcode) = Opcode::of_number(head.opcode) else {
        return Decoded::Unknown { head };
    };
    match read_body(opcode, body) {
        Some(op) => Decoded::Request { head, op },
        None => Decoded::Misspelt { head },
    }
}

/// What the bytes of one read from `/dev/fuse` say. The bytes past the length in the head aren't looked at.
///
/// Proved: Any bytes are exactly one of four: too short, with fewer bytes than a head or a length below a head's or above
/// what is there; of an unknown opcode; misspelt, where the body spells no operation with its opcode; or the request that
/// they spell.
/// Proved: A request has all of its names and data, each in its place: a name is one or more bytes without 0, there is as
/// much data as its length says, and nothing follows the last field.
pub fn decode(bytes: &[u8]) -> Decoded<'_>
    ensures short { (result ≡ Short) ↔ IsShort bytes.now }
    ensures unknown { (head : TheHead) → (result ≡ Unknown head) ↔ IsUnknown bytes.now head }
    ensures misspelt { (head : TheHead) → (result ≡ Misspelt head) ↔ IsMisspelt bytes.now head }
    ensures request { (head : TheHead) (op : TheOp) → (result ≡ Request head op) ↔ IsRequest bytes.now head op }
{
    answer_to(bytes)
}

/// No bytes spell two requests.
///
/// Proved: No bytes spell two requests.
pub fn requests_differ()
    ensures { RequestsDiffer }
{}
