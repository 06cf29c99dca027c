use sn_acl::{Cred, Mode};

/// Somebody who is logged in.
#[derive(Drop)]
pub struct Session {
    pub cred: Cred,
    /// The bits that the mode of a new object loses, where no default ACL is inherited.
    pub umask: Mode,
}
