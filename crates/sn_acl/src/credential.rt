ghost use Rattle.std.specs.Prelude.{◌≡◌, ◌≤◌, ◌==◌, length};
ghost use Rattle.std.specs.List.{list_any};

use arrayvec::ArrayVec;
use std::marker::Model;

/// The most supplementary groups of a caller.
pub const MAX_GROUPS: usize = 32;

/// Who calls: a user, an effective group, and supplementary groups.
#[derive(PartialEq, Eq, Drop)]
pub struct Cred {
    uid: u32,
    gid: u32,
    groups: ArrayVec<u32, MAX_GROUPS>,
}

impl Model for Cred {
    ghost use Rattle.sn_acl.specs.Credential.{Credential};

    ghost Value = { Credential };

    ghost view = { λ c. record { uid = c.uid; gid = c.gid; groups = c.groups.items } };

    ghost inverse = { λ c. record { uid = c.uid; gid = c.gid; groups = record { items = c.groups } } };
}

impl Cred {
    ghost use Rattle.sn_acl.specs.Credential.{is_member};

    /// The credential of a user with an effective group and at most 32 supplementary groups.
    pub fn new(uid: u32, gid: u32, groups: &[u32]) -> Self
        requires { length groups.now ≤ 32 }
        ensures uid { result.uid ≡ uid }
        ensures gid { result.gid ≡ gid }
        ensures groups { result.groups ≡ groups.now }
    {
        let mut held = ArrayVec::new();
        held.try_extend_from_slice(groups).unwrap();
        Cred {
            uid,
            gid,
            groups: held,
        }
    }

    /// A copy, which takes no memory.
    pub fn copy(&self) -> Self
        ensures { result ≡ self.now }
    {
        Cred::new(self.uid(), self.gid(), self.groups())
    }

    /// The effective user number.
    pub fn uid(&self) -> u32
        ensures { result ≡ self.now.uid }
    {
        self.uid
    }

    /// The effective group number.
    pub fn gid(&self) -> u32
        ensures { result ≡ self.now.gid }
    {
        self.gid
    }

    /// The supplementary groups.
    pub fn groups(&self) -> &[u32]
        ensures value { result.now ≡ self.now.groups }
        ensures within { length self.now.groups ≤ 32 }
    {
        self.groups.as_slice()
    }

    /// Whether the group is the effective or a supplementary group of the caller.
    pub fn is_member(&self, group: u32) -> bool
        ensures { result ≡ is_member self.now group }
    {
        group == self.gid || self.has_supplementary(group)
    }

    fn has_supplementary(&self, group: u32) -> bool
        ensures { result ≡ list_any (λ g. g == group) self.now.groups }
    {
        self.groups().iter().any(|g| *g == group)
    }
}
