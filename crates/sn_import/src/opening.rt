//! The calls before the content.
ghost use Rattle.std.specs.Prelude.{◌≡◌, ◌∷◌, ◌++◌, [], map, IfOk};
ghost use Rattle.sn_import.specs.Calls as calls;
ghost use Rattle.sn_import.specs.Calls.{Goes, opening_from, opening_calls};
ghost use Rattle.sn_model.specs.declared.call.Call.TheVariants as call;

use crate::calls::{clear, link, look_at, make_above, make_directory, make_file, own};
use crate::object::{Object, Rights, What};
use crate::paths::next_slash;
use sn_model::Call;
use std::alloc::{AllocError, Global};

/// How far an object is, before its content.
#[derive(Clone, Copy, PartialEq, Eq)]
pub enum Opening {
    /// The directories above it are made, of which the path's front of so many bytes leads through none.
    Above(usize),
    /// What a link is to is looked at.
    Look,
    /// A file that has its name goes.
    Clear,
    Make,
    /// A directory gets its owner.
    Own,
    Done,
}

type Next = Option<(Call, Opening)>;

impl Object {
    fn own_by(&self, alloc: Global, rights: &Rights) -> Result<Next, AllocError>
        ensures { IfOk result (λ next. Goes opening_from self.now next (calls.owning self.now.path rights.now ∷ [])) }
    {
        let call = own(alloc, self.path.as_bytes(), rights)?;
        Ok(Some((call, Opening::Done)))
    }

    fn own(&self, alloc: Global) -> Result<Next, AllocError>
        ensures { IfOk result (λ next. Goes opening_from self.now next (calls.owned self.now.path self.now.what)) }
    {
        match &self.what {
            What::Directory(rights) => self.own_by(alloc, rights),
            What::Top(rights) => self.own_by(alloc, rights),
            _ => Ok(None),
        }
    }

    fn make(&self, alloc: Global) -> Result<Next, AllocError>
        ensures { IfOk result (λ next. Goes opening_from self.now next (calls.made self.now.path self.now.what)) }
    {
        let path = self.path.as_bytes();
        match &self.what {
            What::File(_) => Ok(Some((make_file(alloc, path)?, Opening::Done))),
            What::Directory(_) => Ok(Some((make_directory(alloc, path)?, Opening::Own))),
            What::Top(_) => self.own(alloc),
            What::HardLink(old) => Ok(Some((link(alloc, old.as_bytes(), path)?, Opening::Done))),
        }
    }

    // A file that has the name goes.
    fn remove(&self, alloc: Global) -> Result<Next, AllocError>
        ensures { IfOk result (λ next. Goes opening_from self.now next (call.Unlink self.now.path ∷ calls.made self.now.path self.now.what)) }
    {
        let call = clear(alloc, self.path.as_bytes())?;
        Ok(Some((call, Opening::Make)))
    }

    fn clear(&self, alloc: Global) -> Result<Next, AllocError>
        ensures { IfOk result (λ next. Goes opening_from self.now next (calls.cleared self.now.path self.now.what)) }
    {
        match &self.what {
            What::Top(_) => self.make(alloc),
            What::HardLink(old) => {
                if old.as_bytes() == self.path.as_bytes() {
                    Ok(None)
                } else {
                    self.remove(alloc)
                }
            }
            _ => self.remove(alloc),
        }
    }

    fn look(&self, alloc: Global) -> Result<Next, AllocError>
        ensures { IfOk result (λ next. Goes opening_from self.now next (calls.looked self.now.path self.now.what)) }
    {
        match &self.what {
            What::HardLink(old) => { Ok(Some((look_at(alloc, old.as_bytes())?, Opening::Clear))) }
            _ => self.clear(alloc),
        }
    }

    fn above(&self, alloc: Global, at: usize) -> Result<Next, AllocError>
        ensures { IfOk result (λ next. Goes opening_from self.now next (map calls.making_above (calls.through_from at self.now.path) ++ calls.looked self.now.path self.now.what)) }
    {
        let path = self.path.as_bytes();
        match next_slash(path, at) {
            Some(end) => {
                let call = make_above(alloc, &path[..end])?;
                Ok(Some((call, Opening::Above(end + 1))))
            }
            None => self.look(alloc),
        }
    }

    /// The first of the calls before the content.
    pub fn opening(&self) -> Opening
        ensures { opening_from result self.now ≡ opening_calls self.now }
    {
        Opening::Above(self.lead)
    }

    /// The next call before the content, and how far the object is after it. `None` where there is no other.
    ///
    /// Proved: The next call is that of the object's list: directories above it are made with 0755; a file that has the name
    /// goes; then a file is made with 0600, or a directory with 0700, which gets its owner. The directory that the archive goes
    /// into gets its owner alone. Of a link first the other name is looked at, and it is made where both names differ.
    pub fn opening_call(&self, alloc: Global, place: Opening) -> Result<Next, AllocError>
        ensures { IfOk result (λ next. Goes opening_from self.now next (opening_from place self.now)) }
    {
        match place {
            Opening::Above(at) => self.above(alloc, at),
            Opening::Look => self.look(alloc),
            Opening::Clear => self.clear(alloc),
            Opening::Make => self.make(alloc),
            Opening::Own => self.own(alloc),
            Opening::Done => Ok(None),
        }
    }
}
