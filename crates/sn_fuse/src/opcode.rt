//! Which operation a message asks for.
ghost use Rattle.std.specs.Prelude.{ℕ, ◌≡◌, IfSome, IsNone};
ghost use Rattle.sn_fuse.specs.Opcode.{opcode_number};
ghost use Rattle.sn_fuse.specs.declared.opcode.Opcode.{Opcode as TheOpcode};

/// The operations that are known here, by their names in the protocol.
#[derive(Clone, Copy, PartialEq, Eq, Debug)]
pub enum Opcode {
    Lookup = 1,
    Forget = 2,
    GetAttr = 3,
    SetAttr = 4,
    Symlink = 6,
    Mknod = 8,
    Mkdir = 9,
    Unlink = 10,
    Rmdir = 11,
    Rename = 12,
    Link = 13,
    Open = 14,
    Read = 15,
    Write = 16,
    Statfs = 17,
    Release = 18,
    Fsync = 20,
    SetXattr = 21,
    GetXattr = 22,
    ListXattr = 23,
    RemoveXattr = 24,
    Flush = 25,
    Init = 26,
    OpenDir = 27,
    ReadDir = 28,
    ReleaseDir = 29,
    FsyncDir = 30,
    Access = 34,
    Create = 35,
    Interrupt = 36,
    BatchForget = 42,
    Rename2 = 45,
}

impl Opcode {
    /// The operation that has this number; `None` for a number that no operation here has.
    ///
    /// Proved: Each number denotes one operation at most, and none only where no operation has it.
    pub fn of_number(number: u32) -> Option<Self>
        ensures found { IfSome result (λ opcode. opcode_number opcode ≡ number) }
        ensures none { IsNone result → (opcode : TheOpcode) → opcode_number opcode ≡ number → ⊥ }
    {
        Some(match number {
            1 => Opcode::Lookup,
            2 => Opcode::Forget,
            3 => Opcode::GetAttr,
            4 => Opcode::SetAttr,
            6 => Opcode::Symlink,
            8 => Opcode::Mknod,
            9 => Opcode::Mkdir,
            10 => Opcode::Unlink,
            11 => Opcode::Rmdir,
            12 => Opcode::Rename,
            13 => Opcode::Link,
            14 => Opcode::Open,
            15 => Opcode::Read,
            16 => Opcode::Write,
            17 => Opcode::Statfs,
            18 => Opcode::Release,
            20 => Opcode::Fsync,
            21 => Opcode::SetXattr,
            22 => Opcode::GetXattr,
            23 => Opcode::ListXattr,
            24 => Opcode::RemoveXattr,
            25 => Opcode::Flush,
            26 => Opcode::Init,
            27 => Opcode::OpenDir,
            28 => Opcode::ReadDir,
            29 => Opcode::ReleaseDir,
            30 => Opcode::FsyncDir,
            34 => Opcode::Access,
            35 => Opcode::Create,
            36 => Opcode::Interrupt,
            42 => Opcode::BatchForget,
            45 => Opcode::Rename2,
            _ => return None,
        })
    }

    /// Its number in the protocol.
    pub fn number(self) -> u32
        ensures { result ≡ opcode_number self }
    {
        match self {
            Opcode::Lookup => 1,
            Opcode::Forget => 2,
            Opcode::GetAttr => 3,
            Opcode::SetAttr => 4,
            Opcode::Symlink => 6,
            Opcode::Mknod => 8,
            Opcode::Mkdir => 9,
            Opcode::Unlink => 10,
            Opcode::Rmdir => 11,
            Opcode::Rename => 12,
            Opcode::Link => 13,
            Opcode::Open => 14,
            Opcode::Read => 15,
            Opcode::Write => 16,
            Opcode::Statfs => 17,
            Opcode::Release => 18,
            Opcode::Fsync => 20,
            Opcode::SetXattr => 21,
            Opcode::GetXattr => 22,
            Opcode::ListXattr => 23,
            Opcode::RemoveXattr => 24,
            Opcode::Flush => 25,
            Opcode::Init => 26,
            Opcode::OpenDir => 27,
            Opcode::ReadDir => 28,
            Opcode::ReleaseDir => 29,
            Opcode::FsyncDir => 30,
            Opcode::Access => 34,
            Opcode::Create => 35,
            Opcode::Interrupt => 36,
            Opcode::BatchForget => 42,
            Opcode::Rename2 => 45,
        }
    }
}
