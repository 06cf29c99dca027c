//! The calls after the content, and of a directory after all entries.
ghost use Rattle.std.specs.Prelude.{◌≡◌, ◌∷◌, [], IfOk};
ghost use Rattle.sn_import.specs.Calls as calls;
ghost use Rattle.sn_import.specs.Calls.{Goes, closing_from};

use crate::calls::{grant, grant_new, mark, own};
use crate::object::{Object, Rights, What};
use sn_model::Call;
use std::alloc::{AllocError, Global};

/// How far an object is, after its content.
#[derive(Clone, Copy, PartialEq, Eq)]
pub enum Closing {
    /// A file that is open under this descriptor is closed.
    Close(u32),
    /// A file gets its owner.
    Give,
    /// Its ACL is set.
    Grant,
    /// The default ACL of a directory is set, or goes.
    GrantNew,
    /// S_ISGID and S_ISVTX are set.
    Mark,
    Done,
}

type Next = Option<(Call, Closing)>;

impl Object {
    fn mark_by(&self, alloc: Global, rights: &Rights) -> Result<Next, AllocError>
        ensures { IfOk result (λ next. Goes closing_from self.now next (calls.marking self.now.path rights.now ∷ [])) }
    {
        let call = mark(alloc, self.path.as_bytes(), rights)?;
        Ok(Some((call, Closing::Done)))
    }

    fn mark(&self, alloc: Global) -> Result<Next, AllocError>
        ensures { IfOk result (λ next. Goes closing_from self.now next (calls.marked self.now.path self.now.what)) }
    {
        match &self.what {
            What::HardLink(_) => Ok(None),
            What::File(rights) => {
                if rights.set_gid || rights.sticky {
                    self.mark_by(alloc, rights)
                } else {
                    Ok(None)
                }
            }
            What::Directory(rights) => self.mark_by(alloc, rights),
            What::Top(rights) => self.mark_by(alloc, rights),
        }
    }

    fn grant_new_by(&self, alloc: Global, rights: &Rights) -> Result<Next, AllocError>
        ensures { IfOk result (λ next. Goes closing_from self.now next (calls.granting_new self.now.path rights.now ∷ calls.marked self.now.path self.now.what)) }
    {
        let call = grant_new(alloc, self.path.as_bytes(), rights)?;
        Ok(Some((call, Closing::Mark)))
    }

    fn grant_new(&self, alloc: Global) -> Result<Next, AllocError>
        ensures { IfOk result (λ next. Goes closing_from self.now next (calls.granted_new self.now.path self.now.what)) }
    {
        match &self.what {
            What::Directory(rights) => self.grant_new_by(alloc, rights),
            What::Top(rights) => self.grant_new_by(alloc, rights),
            _ => self.mark(alloc),
        }
    }

    fn grant_by(&self, alloc: Global, rights: &Rights) -> Result<Next, AllocError>
        ensures { IfOk result (λ next. Goes closing_from self.now next (calls.granting self.now.path rights.now ∷ calls.granted_new self.now.path self.now.what)) }
    {
        let call = grant(alloc, self.path.as_bytes(), rights)?;
        Ok(Some((call, Closing::GrantNew)))
    }

    fn grant(&self, alloc: Global) -> Result<Next, AllocError>
        ensures { IfOk result (λ next. Goes closing_from self.now next (calls.granted self.now.path self.now.what)) }
    {
        match &self.what {
            What::File(rights) => self.grant_by(alloc, rights),
            What::Directory(rights) => self.grant_by(alloc, rights),
            What::Top(rights) => self.grant_by(alloc, rights),
            What::HardLink(_) => Ok(None),
        }
    }

    fn give(&self, alloc: Global) -> Result<Next, AllocError>
        ensures { IfOk result (λ next. Goes closing_from self.now next (calls.given self.now.path self.now.what)) }
    {
        match &self.what {
            What::File(rights) => {
                let call = own(alloc, self.path.as_bytes(), rights)?;
                Ok(Some((call, Closing::Grant)))
            }
            What::Directory(_) => self.grant(alloc),
            What::Top(_) => self.grant(alloc),
            What::HardLink(_) => self.grant(alloc),
        }
    }

    fn close(&self, alloc: Global, fd: u32) -> Result<Next, AllocError>
        ensures { IfOk result (λ next. Goes closing_from self.now next (calls.closed fd self.now.path self.now.what)) }
    {
        match &self.what {
            What::File(_) => Ok(Some((Call::Close { fd }, Closing::Give))),
            What::Directory(_) => self.give(alloc),
            What::Top(_) => self.give(alloc),
            What::HardLink(_) => self.give(alloc),
        }
    }

    /// The next call after the content, and how far the object is after it. `None` where there is no other. For a directory these
    /// are the calls after all entries.
    ///
    /// Proved: The next call is that of the object's list: a file is closed, gets its owner, then its ACL, and S_ISGID and S_ISVTX
    /// where it has one of them; a directory gets its ACL, its default ACL or none, and its mode.
    pub fn closing_call(&self, alloc: Global, place: Closing) -> Result<Next, AllocError>
        ensures { IfOk result (λ next. Goes closing_from self.now next (closing_from place self.now)) }
    {
        match place {
            Closing::Close(fd) => self.close(alloc, fd),
            Closing::Give => self.give(alloc),
            Closing::Grant => self.grant(alloc),
            Closing::GrantNew => self.grant_new(alloc),
            Closing::Mark => self.mark(alloc),
            Closing::Done => Ok(None),
        }
    }
}
