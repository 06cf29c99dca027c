//! Bodies with names.
ghost use Rattle.std.specs.Prelude.{◌≡◌, ℕ, List, [], ◌∷◌, IfSome, IsNone};
ghost use Rattle.sn_fuse.specs.Body.{Number, Text, Unread, Nothing, Spells};
ghost use Rattle.sn_fuse.specs.Operation.{IsBody, opcode_of};
ghost use Rattle.sn_fuse.specs.declared.opcode.Opcode.TheVariants as code;
ghost use Rattle.sn_fuse.specs.declared.operation.Op.TheVariants.{Lookup, Unlink, Rmdir, RemoveXattr, Symlink, Mknod, Mkdir, Rename, Link, GetXattr, Create, Rename2};

use crate::name::{Name, read_last_name, read_name};
use crate::operation::Op;
use sn_bytes::Reader;
use sn_fuse_flags::{OpenFlags, RenameFlags};

// A name alone: LOOKUP, UNLINK, RMDIR, REMOVEXATTR.
fn read_only_name(body: &[u8]) -> Option<Name<'_>>
    ensures found { IfSome result (λ name. Spells (Text name ∷ []) Nothing body.now) }
    ensures none { IsNone result → (name : List ℕ) → Spells (Text name ∷ []) Nothing body.now → ⊥ }
{
    read_last_name(&mut Reader::new(body))
}

pub(crate) fn read_lookup(body: &[u8]) -> Option<Op<'_>>
    ensures found { IfSome result (λ op. (opcode_of op ≡ code.Lookup) × IsBody op body.now) }
    ensures none { IsNone result → (name : List ℕ) → IsBody (Lookup name) body.now → ⊥ }
{
    let name = read_only_name(body)?;
    Some(Op::Lookup { name })
}

pub(crate) fn read_unlink(body: &[u8]) -> Option<Op<'_>>
    ensures found { IfSome result (λ op. (opcode_of op ≡ code.Unlink) × IsBody op body.now) }
    ensures none { IsNone result → (name : List ℕ) → IsBody (Unlink name) body.now → ⊥ }
{
    let name = read_only_name(body)?;
    Some(Op::Unlink { name })
}

pub(crate) fn read_rmdir(body: &[u8]) -> Option<Op<'_>>
    ensures found { IfSome result (λ op. (opcode_of op ≡ code.Rmdir) × IsBody op body.now) }
    ensures none { IsNone result → (name : List ℕ) → IsBody (Rmdir name) body.now → ⊥ }
{
    let name = read_only_name(body)?;
    Some(Op::Rmdir { name })
}

pub(crate) fn read_remove_xattr(body: &[u8]) -> Option<Op<'_>>
    ensures found { IfSome result (λ op. (opcode_of op ≡ code.RemoveXattr) × IsBody op body.now) }
    ensures none { IsNone result → (name : List ℕ) → IsBody (RemoveXattr name) body.now → ⊥ }
{
    let name = read_only_name(body)?;
    Some(Op::RemoveXattr { name })
}

// Two names, and nothing after them.
fn read_two_names<'a>(reader: &mut Reader<'a>) -> Option<(Name<'a>, Name<'a>)>
    ensures found { IfSome result (λ names. Spells (Text names.0 ∷ Text names.1 ∷ []) Nothing reader.old) }
    ensures none { IsNone result → (first second : List ℕ) → Spells (Text first ∷ Text second ∷ []) Nothing reader.old → ⊥ }
{
    let first = read_name(reader)?;
    let second = read_last_name(reader)?;
    Some((first, second))
}

pub(crate) fn read_symlink(body: &[u8]) -> Option<Op<'_>>
    ensures found { IfSome result (λ op. (opcode_of op ≡ code.Symlink) × IsBody op body.now) }
    ensures none { IsNone result → (name target : List ℕ) → IsBody (Symlink name target) body.now → ⊥ }
{
    let (name, target) = read_two_names(&mut Reader::new(body))?;
    Some(Op::Symlink { name, target })
}

pub(crate) fn read_mknod(body: &[u8]) -> Option<Op<'_>>
    ensures found { IfSome result (λ op. (opcode_of op ≡ code.Mknod) × IsBody op body.now) }
    ensures none { IsNone result → (mode device umask : ℕ) (name : List ℕ) → IsBody (Mknod mode device umask name) body.now → ⊥ }
{
    let mut fields = Reader::new(body);
    if fields.remaining() < 16 {
        return None;
    }
    let mode = fields.u32();
    let device = fields.u32();
    let umask = fields.u32();
    fields.bytes(4);
    let name = read_last_name(&mut fields)?;
    Some(Op::Mknod {
        mode,
        device,
        umask,
        name,
    })
}

pub(crate) fn read_mkdir(body: &[u8]) -> Option<Op<'_>>
    ensures found { IfSome result (λ op. (opcode_of op ≡ code.Mkdir) × IsBody op body.now) }
    ensures none { IsNone result → (mode umask : ℕ) (name : List ℕ) → IsBody (Mkdir mode umask name) body.now → ⊥ }
{
    let mut fields = Reader::new(body);
    if fields.remaining() < 8 {
        return None;
    }
    let mode = fields.u32();
    let umask = fields.u32();
    let name = read_last_name(&mut fields)?;
    Some(Op::Mkdir { mode, umask, name })
}

pub(crate) fn read_rename(body: &[u8]) -> Option<Op<'_>>
    ensures found { IfSome result (λ op. (opcode_of op ≡ code.Rename) × IsBody op body.now) }
    ensures none { IsNone result → (directory : ℕ) (old_name new_name : List ℕ) → IsBody (Rename directory old_name new_name) body.now → ⊥ }
{
    let mut fields = Reader::new(body);
    if fields.remaining() < 8 {
        return None;
    }
    let directory = fields.u64();
    let (old_name, new_name) = read_two_names(&mut fields)?;
    Some(Op::Rename {
        directory,
        old_name,
        new_name,
    })
}

pub(crate) fn read_rename2(body: &[u8]) -> Option<Op<'_>>
    ensures found { IfSome result (λ op. (opcode_of op ≡ code.Rename2) × IsBody op body.now) }
    ensures none { IsNone result → (directory flags : ℕ) (old_name new_name : List ℕ) → IsBody (Rename2 directory (record { 0 = flags }) old_name new_name) body.now → ⊥ }
{
    let mut fields = Reader::new(body);
    if fields.remaining() < 16 {
        return None;
    }
    let directory = fields.u64();
    let flags = RenameFlags(fields.u32());
    fields.bytes(4);
    let (old_name, new_name) = read_two_names(&mut fields)?;
    Some(Op::Rename2 {
        directory,
        flags,
        old_name,
        new_name,
    })
}

pub(crate) fn read_link(body: &[u8]) -> Option<Op<'_>>
    ensures found { IfSome result (λ op. (opcode_of op ≡ code.Link) × IsBody op body.now) }
    ensures none { IsNone result → (node : ℕ) (name : List ℕ) → IsBody (Link node name) body.now → ⊥ }
{
    let mut fields = Reader::new(body);
    if fields.remaining() < 8 {
        return None;
    }
    let node = fields.u64();
    let name = read_last_name(&mut fields)?;
    Some(Op::Link { node, name })
}

pub(crate) fn read_get_xattr(body: &[u8]) -> Option<Op<'_>>
    ensures found { IfSome result (λ op. (opcode_of op ≡ code.GetXattr) × IsBody op body.now) }
    ensures none { IsNone result → (size : ℕ) (name : List ℕ) → IsBody (GetXattr size name) body.now → ⊥ }
{
    let mut fields = Reader::new(body);
    if fields.remaining() < 8 {
        return None;
    }
    let size = fields.u32();
    fields.bytes(4);
    let name = read_last_name(&mut fields)?;
    Some(Op::GetXattr { size, name })
}

pub(crate) fn read_create(body: &[u8]) -> Option<Op<'_>>
    ensures found { IfSome result (λ op. (opcode_of op ≡ code.Create) × IsBody op body.now) }
    ensures none { IsNone result → (flags mode umask : ℕ) (name : List ℕ) → IsBody (Create (record { 0 = flags }) mode umask name) body.now → ⊥ }
{
    let mut fields = Reader::new(body);
    if fields.remaining() < 16 {
        return None;
    }
    let flags = OpenFlags(fields.u32());
    let mode = fields.u32();
    let umask = fields.u32();
    fields.bytes(4);
    let name = read_last_name(&mut fields)?;
    Some(Op::Create {
        flags,
        mode,
        umask,
        name,
    })
}
