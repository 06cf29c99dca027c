//! Bodies that end in data, whose size is a number before it, and that of INIT, which may have more bytes.
ghost use Rattle.std.specs.Prelude.{◌≡◌, ℕ, ◌*◌, List, [], ◌∷◌, IfSome, IsNone};
ghost use Rattle.sn_fuse.specs.Operation.{IsBody, opcode_of};
ghost use Rattle.sn_fuse.specs.declared.forgets.Forget.{Forget as TheForget};
ghost use Rattle.sn_fuse.specs.declared.opcode.Opcode.TheVariants as code;
ghost use Rattle.sn_fuse.specs.declared.operation.Op.TheVariants.{Write, SetXattr, Init, BatchForget};

use crate::forgets::Forgets;
use crate::name::{Data, read_name};
use crate::operation::Op;
use sn_bytes::Reader;
use sn_fuse_flags::{InitFlags, XattrFlags};

pub(crate) fn read_write(body: &[u8]) -> Option<Op<'_>>
    ensures found { IfSome result (λ op. (opcode_of op ≡ code.Write) × IsBody op body.now) }
    ensures none { IsNone result → (handle offset flags : ℕ) (bytes : List ℕ) → IsBody (Write handle offset flags bytes) body.now → ⊥ }
{
    let mut fields = Reader::new(body);
    if fields.remaining() < 40 {
        return None;
    }
    let handle = fields.u64();
    let offset = fields.u64();
    let size = fields.u32();
    let flags = fields.u32();
    fields.bytes(16);
    if fields.remaining() != size as usize {
        return None;
    }
    Some(Op::Write {
        handle,
        offset,
        flags,
        bytes: Data::new(fields.rest()),
    })
}

pub(crate) fn read_set_xattr(body: &[u8]) -> Option<Op<'_>>
    ensures found { IfSome result (λ op. (opcode_of op ≡ code.SetXattr) × IsBody op body.now) }
    ensures none { IsNone result → (flags : ℕ) (name value : List ℕ) → IsBody (SetXattr (record { 0 = flags }) name value) body.now → ⊥ }
{
    let mut fields = Reader::new(body);
    if fields.remaining() < 8 {
        return None;
    }
    let size = fields.u32();
    let flags = XattrFlags(fields.u32());
    let name = read_name(&mut fields)?;
    if fields.remaining() != size as usize {
        return None;
    }
    Some(Op::SetXattr {
        flags,
        name,
        value: Data::new(fields.rest()),
    })
}

pub(crate) fn read_batch_forget(body: &[u8]) -> Option<Op<'_>>
    ensures found { IfSome result (λ op. (opcode_of op ≡ code.BatchForget) × IsBody op body.now) }
    ensures none { IsNone result → (forgets : List TheForget) → IsBody (BatchForget forgets) body.now → ⊥ }
{
    let mut fields = Reader::new(body);
    if fields.remaining() < 8 {
        return None;
    }
    let count = fields.u32() as usize;
    fields.bytes(4);
    if fields.remaining() != 16 * count {
        return None;
    }
    Some(Op::BatchForget {
        forgets: Forgets::new(count, fields.rest()),
    })
}

// What follows the four numbers isn't read: later versions of the protocol send more.
pub(crate) fn read_init(body: &[u8]) -> Option<Op<'_>>
    ensures found { IfSome result (λ op. (opcode_of op ≡ code.Init) × IsBody op body.now) }
    ensures none { IsNone result → (major minor readahead flags : ℕ) → IsBody (Init major minor readahead (record { 0 = flags })) body.now → ⊥ }
{
    let mut fields = Reader::new(body);
    if fields.remaining() < 16 {
        return None;
    }
    let major = fields.u32();
    let minor = fields.u32();
    let readahead = fields.u32();
    let flags = InitFlags(fields.u32());
    Some(Op::Init {
        major,
        minor,
        readahead,
        flags,
    })
}
