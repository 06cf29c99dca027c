ghost use Rattle.std.specs.Prelude.{◌≡◌, IfSome};
ghost use Rattle.std.specs.Option.{option_copied};
ghost use Rattle.sn_acl.specs.Modes.{mode_of, IsWithin};
ghost use Rattle.sn_acl.specs.Inheritance.{inherited_access, inherited_default};

use crate::{Acl, Mode};

/// The ACLs of a new object.
#[derive(PartialEq, Eq, Drop)]
pub struct Inherited {
    pub access: Acl,
    /// What objects made in a new directory take over.
    pub default: Option<Acl>,
}

/// The ACLs of an object made with a mode argument under a umask, in a directory with this default ACL or none,
/// by acl(5), "OBJECT CREATION AND DEFAULT ACLs". The umask counts only where there is no default ACL.
pub fn inherit(default: Option<&Acl>, mode: Mode, umask: Mode, is_directory: bool) -> Inherited
    ensures access { result.access ≡ inherited_access (option_copied default.entry) mode umask }
    ensures within_mode { IsWithin (mode_of result.access) mode }
    ensures within_default { IfSome (option_copied default.entry) (λ acl. IsWithin (mode_of result.access) (mode_of acl)) }
    ensures default { result.default ≡ inherited_default (option_copied default.entry) is_directory }
{
    let Some(acl) = default else {
        return Inherited {
            access: Acl::from_mode(mode.difference(umask)),
            default: None,
        };
    };
    let mut access = acl.copy();
    access.chmod(acl.mode().intersection(mode));
    Inherited {
        access,
        default: if is_directory { Some(acl.copy()) } else { None },
    }
}
