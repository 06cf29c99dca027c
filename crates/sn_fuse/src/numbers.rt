//! Bodies that are nothing but numbers. Those of one layout have one reader.
ghost use Rattle.std.specs.Prelude.{◌≡◌, ℕ, List, [], ◌∷◌, IfSome, IsNone};
ghost use Rattle.sn_fuse.specs.Body.{Number, Unread, Nothing, Spells};
ghost use Rattle.sn_fuse.specs.Operation.{span_fields, attribute_fields};
ghost use Rattle.sn_fuse.specs.declared.operation.NewAttributes.{NewAttributes as TheAttributes};
ghost use Rattle.sn_fuse.specs.declared.operation.Span.{Span as TheSpan};

use crate::operation::{NewAttributes, Span, Time};
use sn_bytes::Reader;
use sn_fuse_flags::AttributeFlags;

// A number of eight bytes: FORGET, INTERRUPT.
pub(crate) fn read_number(body: &[u8]) -> Option<u64>
    ensures found { IfSome result (λ number. Spells (Number 8 number ∷ []) Nothing body.now) }
    ensures none { IsNone result → (number : ℕ) → Spells (Number 8 number ∷ []) Nothing body.now → ⊥ }
{
    let mut fields = Reader::new(body);
    if fields.remaining() != 8 {
        return None;
    }
    Some(fields.u64())
}

// Bits, and four bytes that aren't read: OPEN, OPENDIR, ACCESS, LISTXATTR.
pub(crate) fn read_bits(body: &[u8]) -> Option<u32>
    ensures found { IfSome result (λ bits. Spells (Number 4 bits ∷ Unread 4 ∷ []) Nothing body.now) }
    ensures none { IsNone result → (bits : ℕ) → Spells (Number 4 bits ∷ Unread 4 ∷ []) Nothing body.now → ⊥ }
{
    let mut fields = Reader::new(body);
    if fields.remaining() != 8 {
        return None;
    }
    let bits = fields.u32();
    fields.bytes(4);
    Some(bits)
}

// A handle alone: RELEASE, RELEASEDIR, FLUSH.
pub(crate) fn read_handle(body: &[u8]) -> Option<u64>
    ensures found { IfSome result (λ handle. Spells (Number 8 handle ∷ Unread 16 ∷ []) Nothing body.now) }
    ensures none { IsNone result → (handle : ℕ) → Spells (Number 8 handle ∷ Unread 16 ∷ []) Nothing body.now → ⊥ }
{
    let mut fields = Reader::new(body);
    if fields.remaining() != 24 {
        return None;
    }
    let handle = fields.u64();
    fields.bytes(16);
    Some(handle)
}

// A handle and bits: FSYNC, FSYNCDIR.
pub(crate) fn read_sync(body: &[u8]) -> Option<(u64, u32)>
    ensures found { IfSome result (λ read. Spells (Number 8 read.0 ∷ Number 4 read.1 ∷ Unread 4 ∷ []) Nothing body.now) }
    ensures none { IsNone result → (handle flags : ℕ) → Spells (Number 8 handle ∷ Number 4 flags ∷ Unread 4 ∷ []) Nothing body.now → ⊥ }
{
    let mut fields = Reader::new(body);
    if fields.remaining() != 16 {
        return None;
    }
    let handle = fields.u64();
    let flags = fields.u32();
    fields.bytes(4);
    Some((handle, flags))
}

// Bits and a handle: GETATTR.
pub(crate) fn read_bits_and_handle(body: &[u8]) -> Option<(u32, u64)>
    ensures found { IfSome result (λ read. Spells (Number 4 read.0 ∷ Unread 4 ∷ Number 8 read.1 ∷ []) Nothing body.now) }
    ensures none { IsNone result → (flags handle : ℕ) → Spells (Number 4 flags ∷ Unread 4 ∷ Number 8 handle ∷ []) Nothing body.now → ⊥ }
{
    let mut fields = Reader::new(body);
    if fields.remaining() != 16 {
        return None;
    }
    let flags = fields.u32();
    fields.bytes(4);
    let handle = fields.u64();
    Some((flags, handle))
}

// READ, READDIR.
pub(crate) fn read_span(body: &[u8]) -> Option<Span>
    ensures found { IfSome result (λ span. Spells (span_fields span) Nothing body.now) }
    ensures none { IsNone result → (span : TheSpan) → Spells (span_fields span) Nothing body.now → ⊥ }
{
    let mut fields = Reader::new(body);
    if fields.remaining() != 40 {
        return None;
    }
    let handle = fields.u64();
    let offset = fields.u64();
    let size = fields.u32();
    fields.bytes(20);
    Some(Span {
        handle,
        offset,
        size,
    })
}

// SETATTR.
pub(crate) fn read_attributes(body: &[u8]) -> Option<NewAttributes>
    ensures found { IfSome result (λ attributes. Spells (attribute_fields attributes) Nothing body.now) }
    ensures none { IsNone result → (attributes : TheAttributes) → Spells (attribute_fields attributes) Nothing body.now → ⊥ }
{
    let mut fields = Reader::new(body);
    if fields.remaining() != 88 {
        return None;
    }
    let flags = AttributeFlags(fields.u32());
    fields.bytes(4);
    let handle = fields.u64();
    let size = fields.u64();
    fields.bytes(8);
    let accessed_seconds = fields.u64();
    let modified_seconds = fields.u64();
    fields.bytes(8);
    let accessed_nanoseconds = fields.u32();
    let modified_nanoseconds = fields.u32();
    fields.bytes(4);
    let mode = fields.u32();
    fields.bytes(4);
    let user = fields.u32();
    let group = fields.u32();
    fields.bytes(4);
    Some(NewAttributes {
        flags,
        handle,
        size,
        accessed: Time {
            seconds: accessed_seconds,
            nanoseconds: accessed_nanoseconds,
        },
        modified: Time {
            seconds: modified_seconds,
            nanoseconds: modified_nanoseconds,
        },
        mode,
        user,
        group,
    })
}
