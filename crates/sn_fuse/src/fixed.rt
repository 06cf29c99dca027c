//! The operations whose bodies are nothing but numbers.
ghost use Rattle.std.specs.Prelude.{◌≡◌, ℕ, IfSome, IsNone};
ghost use Rattle.sn_fuse.specs.Operation.{IsBody, opcode_of};
ghost use Rattle.sn_fuse.specs.declared.opcode.Opcode.TheVariants as code;
ghost use Rattle.sn_fuse.specs.declared.operation.NewAttributes.{NewAttributes as TheAttributes};
ghost use Rattle.sn_fuse.specs.declared.operation.Op.TheVariants.{Forget, Interrupt, Open, OpenDir, Access, ListXattr, Release, ReleaseDir, Flush, Fsync, FsyncDir, Read, ReadDir, GetAttr, SetAttr, Statfs};
ghost use Rattle.sn_fuse.specs.declared.operation.Span.{Span as TheSpan};

use crate::numbers::{
    read_attributes, read_bits, read_bits_and_handle, read_handle, read_number, read_span,
    read_sync,
};
use crate::operation::Op;
use sn_fuse_flags::OpenFlags;

pub(crate) fn read_forget<'a>(body: &[u8]) -> Option<Op<'a>>
    ensures found { IfSome result (λ op. (opcode_of op ≡ code.Forget) × IsBody op body.now) }
    ensures none { IsNone result → (lookups : ℕ) → IsBody (Forget lookups) body.now → ⊥ }
{
    let lookups = read_number(body)?;
    Some(Op::Forget { lookups })
}

pub(crate) fn read_interrupt<'a>(body: &[u8]) -> Option<Op<'a>>
    ensures found { IfSome result (λ op. (opcode_of op ≡ code.Interrupt) × IsBody op body.now) }
    ensures none { IsNone result → (unique : ℕ) → IsBody (Interrupt unique) body.now → ⊥ }
{
    let unique = read_number(body)?;
    Some(Op::Interrupt { unique })
}

pub(crate) fn read_open<'a>(body: &[u8]) -> Option<Op<'a>>
    ensures found { IfSome result (λ op. (opcode_of op ≡ code.Open) × IsBody op body.now) }
    ensures none { IsNone result → (flags : ℕ) → IsBody (Open (record { 0 = flags })) body.now → ⊥ }
{
    let flags = OpenFlags(read_bits(body)?);
    Some(Op::Open { flags })
}

pub(crate) fn read_open_dir<'a>(body: &[u8]) -> Option<Op<'a>>
    ensures found { IfSome result (λ op. (opcode_of op ≡ code.OpenDir) × IsBody op body.now) }
    ensures none { IsNone result → (flags : ℕ) → IsBody (OpenDir (record { 0 = flags })) body.now → ⊥ }
{
    let flags = OpenFlags(read_bits(body)?);
    Some(Op::OpenDir { flags })
}

pub(crate) fn read_access<'a>(body: &[u8]) -> Option<Op<'a>>
    ensures found { IfSome result (λ op. (opcode_of op ≡ code.Access) × IsBody op body.now) }
    ensures none { IsNone result → (mask : ℕ) → IsBody (Access mask) body.now → ⊥ }
{
    let mask = read_bits(body)?;
    Some(Op::Access { mask })
}

pub(crate) fn read_list_xattr<'a>(body: &[u8]) -> Option<Op<'a>>
    ensures found { IfSome result (λ op. (opcode_of op ≡ code.ListXattr) × IsBody op body.now) }
    ensures none { IsNone result → (size : ℕ) → IsBody (ListXattr size) body.now → ⊥ }
{
    let size = read_bits(body)?;
    Some(Op::ListXattr { size })
}

pub(crate) fn read_release<'a>(body: &[u8]) -> Option<Op<'a>>
    ensures found { IfSome result (λ op. (opcode_of op ≡ code.Release) × IsBody op body.now) }
    ensures none { IsNone result → (handle : ℕ) → IsBody (Release handle) body.now → ⊥ }
{
    let handle = read_handle(body)?;
    Some(Op::Release { handle })
}

pub(crate) fn read_release_dir<'a>(body: &[u8]) -> Option<Op<'a>>
    ensures found { IfSome result (λ op. (opcode_of op ≡ code.ReleaseDir) × IsBody op body.now) }
    ensures none { IsNone result → (handle : ℕ) → IsBody (ReleaseDir handle) body.now → ⊥ }
{
    let handle = read_handle(body)?;
    Some(Op::ReleaseDir { handle })
}

pub(crate) fn read_flush<'a>(body: &[u8]) -> Option<Op<'a>>
    ensures found { IfSome result (λ op. (opcode_of op ≡ code.Flush) × IsBody op body.now) }
    ensures none { IsNone result → (handle : ℕ) → IsBody (Flush handle) body.now → ⊥ }
{
    let handle = read_handle(body)?;
    Some(Op::Flush { handle })
}

pub(crate) fn read_fsync<'a>(body: &[u8]) -> Option<Op<'a>>
    ensures found { IfSome result (λ op. (opcode_of op ≡ code.Fsync) × IsBody op body.now) }
    ensures none { IsNone result → (handle flags : ℕ) → IsBody (Fsync handle flags) body.now → ⊥ }
{
    let (handle, flags) = read_sync(body)?;
    Some(Op::Fsync { handle, flags })
}

pub(crate) fn read_fsync_dir<'a>(body: &[u8]) -> Option<Op<'a>>
    ensures found { IfSome result (λ op. (opcode_of op ≡ code.FsyncDir) × IsBody op body.now) }
    ensures none { IsNone result → (handle flags : ℕ) → IsBody (FsyncDir handle flags) body.now → ⊥ }
{
    let (handle, flags) = read_sync(body)?;
    Some(Op::FsyncDir { handle, flags })
}

pub(crate) fn read_read<'a>(body: &[u8]) -> Option<Op<'a>>
    ensures found { IfSome result (λ op. (opcode_of op ≡ code.Read) × IsBody op body.now) }
    ensures none { IsNone result → (span : TheSpan) → IsBody (Read span) body.now → ⊥ }
{
    let span = read_span(body)?;
    Some(Op::Read { span })
}

pub(crate) fn read_read_dir<'a>(body: &[u8]) -> Option<Op<'a>>
    ensures found { IfSome result (λ op. (opcode_of op ≡ code.ReadDir) × IsBody op body.now) }
    ensures none { IsNone result → (span : TheSpan) → IsBody (ReadDir span) body.now → ⊥ }
{
    let span = read_span(body)?;
    Some(Op::ReadDir { span })
}

pub(crate) fn read_get_attr<'a>(body: &[u8]) -> Option<Op<'a>>
    ensures found { IfSome result (λ op. (opcode_of op ≡ code.GetAttr) × IsBody op body.now) }
    ensures none { IsNone result → (flags handle : ℕ) → IsBody (GetAttr flags handle) body.now → ⊥ }
{
    let (flags, handle) = read_bits_and_handle(body)?;
    Some(Op::GetAttr { flags, handle })
}

pub(crate) fn read_set_attr<'a>(body: &[u8]) -> Option<Op<'a>>
    ensures found { IfSome result (λ op. (opcode_of op ≡ code.SetAttr) × IsBody op body.now) }
    ensures none { IsNone result → (attributes : TheAttributes) → IsBody (SetAttr attributes) body.now → ⊥ }
{
    let attributes = read_attributes(body)?;
    Some(Op::SetAttr { attributes })
}

pub(crate) fn read_statfs<'a>(body: &[u8]) -> Option<Op<'a>>
    ensures found { IfSome result (λ op. (opcode_of op ≡ code.Statfs) × IsBody op body.now) }
    ensures none { IsNone result → IsBody Statfs body.now → ⊥ }
{
    if !body.is_empty() {
        return None;
    }
    Some(Op::Statfs)
}
