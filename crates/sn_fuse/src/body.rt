//! What the body of a message says, by its operation.
ghost use Rattle.std.specs.Prelude.{◌≡◌, IfSome, IsNone};
ghost use Rattle.sn_fuse.specs.Operation.{IsBody, opcode_of};
ghost use Rattle.sn_fuse.specs.declared.operation.Op.{Op as TheOp};

use crate::fixed::{
    read_access, read_flush, read_forget, read_fsync, read_fsync_dir, read_get_attr,
    read_interrupt, read_list_xattr, read_open, read_open_dir, read_read, read_read_dir,
    read_release, read_release_dir, read_set_attr, read_statfs,
};
use crate::named::{
    read_create, read_get_xattr, read_link, read_lookup, read_mkdir, read_mknod, read_remove_xattr,
    read_rename, read_rename2, read_rmdir, read_symlink, read_unlink,
};
use crate::opcode::Opcode;
use crate::operation::Op;
use crate::sized::{read_batch_forget, read_init, read_set_xattr, read_write};

// The operation of this opcode that a body spells; `None` where it spells none.
pub(crate) fn read_body(opcode: Opcode, body: &[u8]) -> Option<Op<'_>>
    ensures found { IfSome result (λ op. (opcode_of op ≡ opcode) × IsBody op body.now) }
    ensures none { IsNone result → (op : TheOp) → opcode_of op ≡ opcode → IsBody op body.now → ⊥ }
{
    match opcode {
        Opcode::Lookup => read_lookup(body),
        Opcode::Forget => read_forget(body),
        Opcode::GetAttr => read_get_attr(body),
        Opcode::SetAttr => read_set_attr(body),
        Opcode::Symlink => read_symlink(body),
        Opcode::Mknod => read_mknod(body),
        Opcode::Mkdir => read_mkdir(body),
        Opcode::Unlink => read_unlink(body),
        Opcode::Rmdir => read_rmdir(body),
        Opcode::Rename => read_rename(body),
        Opcode::Link => read_link(body),
        Opcode::Open => read_open(body),
        Opcode::Read => read_read(body),
        Opcode::Write => read_write(body),
        Opcode::Statfs => read_statfs(body),
        Opcode::Release => read_release(body),
        Opcode::Fsync => read_fsync(body),
        Opcode::SetXattr => read_set_xattr(body),
        Opcode::GetXattr => read_get_xattr(body),
        Opcode::ListXattr => read_list_xattr(body),
        Opcode::RemoveXattr => read_remove_xattr(body),
        Opcode::Flush => read_flush(body),
        Opcode::Init => read_init(body),
        Opcode::OpenDir => read_open_dir(body),
        Opcode::ReadDir => read_read_dir(body),
        Opcode::ReleaseDir => read_release_dir(body),
        Opcode::FsyncDir => read_fsync_dir(body),
        Opcode::Access => read_access(body),
        Opcode::Create => read_create(body),
        Opcode::Interrupt => read_interrupt(body),
        Opcode::BatchForget => read_batch_forget(body),
        Opcode::Rename2 => read_rename2(body),
    }
}
