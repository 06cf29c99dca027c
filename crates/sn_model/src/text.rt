//! How replies' parts print themselves, as the lines of replies and faults have them.

use crate::{Access, Damage, Denial, Errno, MountFault, PathNumber, Progress, Refusal, Rule};
use std::fmt;

impl fmt::Display for Errno {
    ghost use Rattle.std.specs.Prelude.{Some};
    ghost use Rattle.sn_model.specs.Texts.{errno_name};

    ghost output = { λ errno. Some (errno_name errno) };

    fn fmt<W: fmt::Write>(&self, f: &mut fmt::Formatter<W>) -> fmt::Result {
        f.write_str(match self {
            Errno::Eacces => "EACCES",
            Errno::Eperm => "EPERM",
            Errno::Enoent => "ENOENT",
            Errno::Enotdir => "ENOTDIR",
            Errno::Eisdir => "EISDIR",
            Errno::Eexist => "EEXIST",
            Errno::Enotempty => "ENOTEMPTY",
            Errno::Einval => "EINVAL",
            Errno::Enametoolong => "ENAMETOOLONG",
            Errno::Erofs => "EROFS",
            Errno::Exdev => "EXDEV",
            Errno::Ebusy => "EBUSY",
            Errno::Emlink => "EMLINK",
            Errno::Emfile => "EMFILE",
            Errno::Ebadf => "EBADF",
            Errno::Efbig => "EFBIG",
            Errno::Elimit => "ELIMIT",
            Errno::Enospc => "ENOSPC",
            Errno::Enomem => "ENOMEM",
            Errno::Eio => "EIO",
            Errno::Estopped => "ESTOPPED",
        })
    }
}

impl fmt::Display for Rule {
    ghost use Rattle.std.specs.Prelude.{Some};
    ghost use Rattle.sn_model.specs.Texts.{rule_text};

    ghost output = { λ rule. Some (rule_text rule) };

    fn fmt<W: fmt::Write>(&self, f: &mut fmt::Formatter<W>) -> fmt::Result {
        match *self {
            Rule::Entry(tag) => write!(f, "{tag}"),
            Rule::Sticky => f.write_str("sticky"),
            Rule::NotOwner => f.write_str("not-owner"),
            Rule::NotRoot => f.write_str("not-root"),
            Rule::NotMember => f.write_str("not-member"),
        }
    }
}

/// The three letters of `r`, `w` and `x`, with `-` for each right that isn't asked.
impl fmt::Display for Access {
    ghost use Rattle.std.specs.Prelude.{Some};
    ghost use Rattle.sn_model.specs.Texts.{access_text};

    ghost output = { λ access. Some (access_text access) };

    fn fmt<W: fmt::Write>(&self, f: &mut fmt::Formatter<W>) -> fmt::Result {
        let read = if self.read { "r" } else { "-" };
        let write = if self.write { "w" } else { "-" };
        let execute = if self.execute { "x" } else { "-" };
        write!(f, "{read}{write}{execute}")
    }
}

impl fmt::Display for PathNumber {
    ghost use Rattle.std.specs.Prelude.{Some, decimal};

    ghost output = { λ path. Some (decimal path) };

    fn fmt<W: fmt::Write>(&self, f: &mut fmt::Formatter<W>) -> fmt::Result {
        write!(f, "{}", self.get())
    }
}

impl fmt::Display for Denial {
    ghost use Rattle.std.specs.Prelude.{Some};
    ghost use Rattle.sn_model.specs.Texts.{denial_text};

    ghost output = { λ denial. Some (denial_text denial) };

    fn fmt<W: fmt::Write>(&self, f: &mut fmt::Formatter<W>) -> fmt::Result {
        let Denial {
            path,
            place,
            want,
            rule,
        } = *self;
        write!(f, "path {path} place {place} want {want} by {rule}")
    }
}

impl fmt::Display for Refusal {
    ghost use Rattle.std.specs.Prelude.{Some};
    ghost use Rattle.sn_model.specs.Texts.{refusal_text};

    ghost output = { λ refusal. Some (refusal_text refusal) };

    fn fmt<W: fmt::Write>(&self, f: &mut fmt::Formatter<W>) -> fmt::Result {
        let errno = self.errno;
        match self.denial {
            Some(denial) => write!(f, "{errno} {denial}"),
            None => write!(f, "{errno}"),
        }
    }
}

impl fmt::Display for Progress {
    ghost use Rattle.std.specs.Prelude.{Some};
    ghost use Rattle.sn_model.specs.Texts.{progress_text};

    ghost output = { λ progress. Some (progress_text progress) };

    fn fmt<W: fmt::Write>(&self, f: &mut fmt::Formatter<W>) -> fmt::Result {
        f.write_str(match self {
            Progress::More => "more",
            Progress::Done => "done",
        })
    }
}

impl fmt::Display for Damage {
    ghost use Rattle.std.specs.Prelude.{Some};
    ghost use Rattle.sn_model.specs.Texts.{damage_text};

    ghost output = { λ damage. Some (damage_text damage) };

    fn fmt<W: fmt::Write>(&self, f: &mut fmt::Formatter<W>) -> fmt::Result {
        f.write_str(match self {
            Damage::Root => "C1",
            Damage::Pointer => "C2",
            Damage::ReachedTwice => "C3",
            Damage::MapWord => "C4",
            Damage::Misspelt => "C5",
            Damage::Links => "C6",
            Damage::Log => "C7",
        })
    }
}

impl fmt::Display for MountFault {
    ghost use Rattle.std.specs.Prelude.{Some};
    ghost use Rattle.sn_model.specs.Texts.{mount_fault_text};

    ghost output = { λ fault. Some (mount_fault_text fault) };

    fn fmt<W: fmt::Write>(&self, f: &mut fmt::Formatter<W>) -> fmt::Result {
        match *self {
            MountFault::NotFormatted => f.write_str("M1"),
            MountFault::Version => f.write_str("M2"),
            MountFault::NoRoot => f.write_str("M3"),
            MountFault::Damaged { damage, block } => write!(f, "M4 {damage} {block}"),
            MountFault::Memory => f.write_str("M5"),
            MountFault::Device => f.write_str("M6"),
        }
    }
}
