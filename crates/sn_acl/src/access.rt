ghost use Rattle.std.specs.Prelude.{◌≡◌, ◌&&◌, find};
ghost use Rattle.std.specs.List.{list_any};
ghost use Rattle.std.specs.Result.{result_err};
ghost use Rattle.sn_acl.specs.AccessList.{IsValid};
ghost use Rattle.sn_acl.specs.Rights.{contains};
ghost use Rattle.sn_acl.specs.Access.{denial_of, class_of, is_held_group, limit_of};
ghost use Rattle.sn_acl.specs.Matching.{is_in, matching};

use crate::{Acl, Cred, Entry, Permissions, Tag};

/// Whether a caller may do all that it wants with an object of this owner, group and ACL, by the access check
/// algorithm of acl(5). An `Err` has the entry that denies it: the MASK where an entry for the caller contains
/// what is wanted, else the first entry that is for the caller. The user 0 is granted everything.
///
/// Proved: A right is granted exactly by the access check algorithm of acl(5), and a denial names the deciding entry.
pub fn check(cred: &Cred, owner: u32, group: u32, acl: &Acl, want: Permissions) -> Result<(), Entry>
    ensures { result_err result ≡ denial_of cred.now owner group acl.now want }
{
    if cred.uid() == 0 {
        return Ok(());
    }
    let entries = acl.entries();
    let class = class_for(cred, owner, group, entries);
    if !class.grants(entries, want) {
        return Err(class.first(entries).unwrap_or_default());
    }
    match class.limit(acl) {
        Some(mask) if !mask.permissions.contains(want) => Err(mask),
        _ => Ok(()),
    }
}

// Which entries decide: the first of these that has an entry.
#[derive(Drop)]
enum Class<'a> {
    Owner,
    User(u32),
    Groups(&'a Cred, u32),
    Others,
}

fn class_for<'a>(cred: &'a Cred, owner: u32, group: u32, entries: &[Entry]) -> Class<'a>
    requires { IsValid entries.now }
    ensures { class_of cred.now owner group entries.now ≡ matching result entries.now }
{
    let user = Class::User(cred.uid());
    let groups = Class::Groups(cred, group);
    if cred.uid() == owner {
        Class::Owner
    } else if user.is_in(entries) {
        user
    } else if groups.is_in(entries) {
        groups
    } else {
        Class::Others
    }
}

impl Class<'_> {
    // Whether an entry with this tag is in the class.
    fn has(&self, tag: Tag) -> bool
        ensures { result ≡ is_in self.now tag }
    {
        match self {
            Class::Owner => tag.is_user_obj(),
            Class::User(uid) => tag.is_user(*uid),
            Class::Groups(cred, group) => is_held_group(cred, *group, tag),
            Class::Others => tag.is_other(),
        }
    }

    // Whether the class has an entry.
    fn is_in(&self, entries: &[Entry]) -> bool
        ensures { result ≡ list_any (λ e. is_in self.now e.tag) entries.now }
    {
        entries.iter().any(|e| self.has(e.tag))
    }

    // Whether one entry of the class contains all that is wanted.
    fn grants(&self, entries: &[Entry], want: Permissions) -> bool
        ensures { result ≡ list_any (λ e. is_in self.now e.tag && contains e.permissions want) entries.now }
    {
        entries
            .iter()
            .any(|e| self.has(e.tag) && e.permissions.contains(want))
    }

    // The first entry of the class.
    fn first(&self, entries: &[Entry]) -> Option<Entry>
        ensures { result ≡ find (λ e. is_in self.now e.tag) entries.now }
    {
        entries.iter().copied().find(|e| self.has(e.tag))
    }

    // The MASK, where there is one and it limits the class.
    fn limit(&self, acl: &Acl) -> Option<Entry>
        ensures { result ≡ limit_of (matching self.now acl.now) acl.now }
    {
        match self {
            Class::Owner | Class::Others => None,
            Class::User(_) | Class::Groups(..) => acl.mask(),
        }
    }
}

// Whether the tag names a group of the caller.
fn is_held_group(cred: &Cred, group: u32, tag: Tag) -> bool
    ensures { result ≡ is_held_group cred.now group tag }
{
    match tag {
        Tag::GroupObj => cred.is_member(group),
        Tag::Group(n) => cred.is_member(n),
        _ => false,
    }
}
