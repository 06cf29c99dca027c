ghost use Rattle.std.specs.Prelude.{◌≡◌, ◌+◌, ◌↔◌, IsTrue, ◌-◌, ◌*◌, ◌<◌, ◌≤◌, replicate, slice_get, slice_set, vec_len, option_copied, None, Some, IsOk, IfOk, OnOk, OnErr};
ghost use Rattle.std.specs.Option.{option_map};
ghost use Rattle.std.specs.FinMap as finite;
ghost use Rattle.sn_model.specs.Descriptors.{closed, descriptor_at, is_held_in, moved_to, next_descriptor, opened, readable_at, sought, without_session, writable_at};
ghost use Rattle.sn_model.specs.Steps.{masked};
ghost use Rattle.sn_model.specs.Tests.{logged_in, logged_out};
ghost use Rattle.sn_model.specs.World.{World};
ghost use Rattle.sn_walk.specs.Gives.{Answers};
ghost use Rattle.arrayvec.specs.ArrayVec.{array_vec_len};
ghost use Rattle.sn_desc.specs.Closing.{AreReleased, closing, pushed, released_if};
ghost use Rattle.sn_desc.specs.Seeking.{Seeks};
ghost use Rattle.sn_desc.specs.InUse.{HasOpen, descriptor_of, in_world, live_in, nothing_in_use, seat_of};

use crate::open_file::OpenFile;
use crate::open_files::OpenFiles;
use arrayvec::ArrayVec;
use sn_acl::Mode;
use sn_limits::Limits;
use sn_model::{Errno, Refusal, Session};
use sn_walk::Home;
use std::alloc::{AllocError, Global};

/// How many sessions there are.
pub const SESSIONS: u32 = 64;

/// How many descriptors a session can have.
pub const DESCRIPTORS: u32 = 64;

/// The numbers of live files that a logout left without a descriptor.
pub type Released = ArrayVec<u16, 64>;

/// Who is logged in, and what each session has open.
#[derive(Drop)]
pub struct Sessions {
    sessions: Vec<Option<Session>>,
    files: OpenFiles,
    ghost sessions_are_64: { vec_len sessions ≡ 64 },
}

/// Nobody is logged in.
fn free_sessions(alloc: Global) -> Result<Vec<Option<Session>>, AllocError>
    ensures { IfOk result (λ v. v.items ≡ replicate 64 None) }
{
    let mut sessions = Vec::with_capacity(alloc, SESSIONS as usize)?;
    for _session in 0..SESSIONS {
        sessions.push(None)?;
    }
    Ok(sessions)
}

/// The seat of a descriptor, where a session can have one with this number.
fn seat_of(session: u32, fd: u32) -> Option<usize>
    ensures { result ≡ seat_of session fd }
{
    if session < SESSIONS && fd < DESCRIPTORS {
        return Some(session as usize * 64 + fd as usize);
    }
    None
}

/// Sets the umask of whoever is logged in at a seat.
fn set_mask(slot: &mut Option<Session>, mask: Mode)
    ensures { slot.new ≡ masked mask (Some slot.old) }
{
    if let Some(caller) = slot {
        caller.umask = mask;
    }
}

/// Appends a number to a list, if there is one.
fn push_some(released: &mut Released, number: Option<u16>)
    requires { array_vec_len released.old < 64 }
    ensures { released.new.items ≡ pushed released.old.items number }
{
    match number {
        Some(number) => released.push(number),
        None => {}
    }
}

impl Sessions {
    ghost use Rattle.sn_desc.specs.Sessions.{in_use_of};

    /// Nobody is logged in. All memory is taken but that for open files.
    pub fn new(alloc: Global) -> Result<Sessions, AllocError>
        ensures { IfOk result (λ s. in_use_of s ≡ nothing_in_use (in_use_of s).room) }
    {
        Ok(Sessions {
            sessions: free_sessions(alloc)?,
            files: OpenFiles::new(alloc)?,
        })
    }

    /// Who is logged in. It is EINVAL where there is no such session, and EBADF where nobody is logged
    /// in.
    pub fn logged_in(&self, session: u32) -> Result<&Session, Refusal>
        ensures { (world : World) → Answers (λ s. s.now) result (logged_in (in_world (in_use_of self.now) world) session) }
    {
        if session >= SESSIONS {
            return Err(Refusal::plain(Errno::Einval));
        }
        match &self.sessions[session as usize] {
            Some(caller) => Ok(caller),
            None => Err(Refusal::plain(Errno::Ebadf)),
        }
    }

    /// Whether nobody is logged in. It is EINVAL where there is no such session, and EBUSY where
    /// somebody is logged in.
    pub fn logged_out(&self, session: u32) -> Result<(), Refusal>
        ensures { (world : World) → result ≡ logged_out (in_world (in_use_of self.now) world) session }
    {
        if session >= SESSIONS {
            return Err(Refusal::plain(Errno::Einval));
        }
        if self.sessions[session as usize].is_some() {
            return Err(Refusal::plain(Errno::Ebusy));
        }
        Ok(())
    }

    /// Logs a caller in, where there is such a session.
    ///
    /// Proved, also of `logout` and `get`: Who is logged in and what each session has open are the two maps of the model.
    /// Proved, also of `logout`, `set_umask`, `open`, `close`, `seek` and `clear`: None of these calls takes memory, and
    /// `open` needs room that `reserve` made before.
    pub fn login(&mut self, session: u32, caller: Session)
        ensures { in_use_of self.new ≡ record (in_use_of self.old) { sessions = slice_set (in_use_of self.old).sessions session (Some caller) } }
    {
        if let Some(slot) = self.sessions.get_mut(session as usize) {
            *slot = Some(caller);
        }
    }

    /// Sets the umask of a session, if somebody is logged in.
    pub fn set_umask(&mut self, session: u32, mask: Mode)
        ensures { in_use_of self.new ≡ record (in_use_of self.old) { sessions = slice_set (in_use_of self.old).sessions session (masked mask (slice_get (in_use_of self.old).sessions session)) } }
    {
        if let Some(slot) = self.sessions.get_mut(session as usize) {
            set_mask(slot, mask);
        }
    }

    /// What is open under a descriptor.
    fn file(&self, session: u32, fd: u32) -> Option<&OpenFile>
        ensures { option_map descriptor_of (option_copied result) ≡ finite.get (in_use_of self.now).descriptors (session, fd) }
    {
        self.files.get(seat_of(session, fd)?)
    }

    /// What is open under a descriptor. It is EBADF where nothing is.
    ///
    /// Proved, also of `readable`, `writable` and `seek`: A descriptor that isn't open, or not for what is asked, is
    /// `EBADF`; a seek past the largest file is `EINVAL`.
    pub fn get(&self, session: u32, fd: u32) -> Result<&OpenFile, Refusal>
        ensures { Answers (λ f. descriptor_of f.now) result (descriptor_at (in_use_of self.now).descriptors session fd) }
    {
        match self.file(session, fd) {
            Some(file) => Ok(file),
            None => Err(Refusal::plain(Errno::Ebadf)),
        }
    }

    /// What is open for reading under a descriptor. It is EBADF where nothing is.
    pub fn readable(&self, session: u32, fd: u32) -> Result<&OpenFile, Refusal>
        ensures { Answers (λ f. descriptor_of f.now) result (readable_at (in_use_of self.now).descriptors session fd) }
    {
        let file = self.get(session, fd)?;
        if !file.readable {
            return Err(Refusal::plain(Errno::Ebadf));
        }
        Ok(file)
    }

    /// What is open for writing under a descriptor. It is EBADF where nothing is.
    pub fn writable(&self, session: u32, fd: u32) -> Result<&OpenFile, Refusal>
        ensures { Answers (λ f. descriptor_of f.now) result (writable_at (in_use_of self.now).descriptors session fd) }
    {
        let file = self.get(session, fd)?;
        if !file.writable {
            return Err(Refusal::plain(Errno::Ebadf));
        }
        Ok(file)
    }

    /// The descriptor that a session gets next: the least that isn't open. It is EMFILE where all are.
    ///
    /// Proved, also of `open`: A session gets the least of 64 descriptors that it doesn't have, and `EMFILE` where it has
    /// all.
    pub fn next_descriptor(&self, session: u32) -> Result<u32, Refusal>
        ensures next { result ≡ next_descriptor (in_use_of self.now).descriptors session }
        ensures within { IfOk result (λ fd. fd < 64) }
        ensures vacant { IfOk result (λ fd. finite.get (in_use_of self.now).descriptors (session, fd) ≡ None) }
    {
        for fd in 0..DESCRIPTORS {
            if self.file(session, fd).is_none() {
                return Ok(fd);
            }
        }
        Err(Refusal::plain(Errno::Emfile))
    }

    /// Makes room for one more open file. Where memory is refused nothing changes.
    pub fn reserve(&mut self) -> Result<(), AllocError>
        ensures ok { OnOk result (0 < (in_use_of self.new).room) }
        ensures same { in_use_of self.new ≡ record (in_use_of self.old) { room = (in_use_of self.new).room } }
        ensures room { (in_use_of self.old).room ≤ (in_use_of self.new).room }
        ensures there_already { 0 < (in_use_of self.old).room → IsOk result }
    {
        self.files.reserve()
    }

    /// Opens a file under the session's next descriptor, for which there is room. It is EMFILE where
    /// the session has no descriptor left, and then nothing changes.
    ///
    /// Proved, also of `get`: The rights and the file of a descriptor stay those that it was opened with.
    pub fn open(&mut self, session: u32, file: OpenFile) -> Result<u32, Refusal>
        requires session { session < 64 }
        requires room { 0 < (in_use_of self.old).room }
        ensures fd { result ≡ next_descriptor (in_use_of self.old).descriptors session }
        ensures ok { IfOk result (λ fd. in_use_of self.new ≡ record (in_use_of self.old) { descriptors = opened (in_use_of self.old).descriptors session fd (descriptor_of file); room = (in_use_of self.old).room - 1 }) }
        ensures err { OnErr result (in_use_of self.new ≡ in_use_of self.old) }
    {
        match self.next_descriptor(session) {
            Ok(fd) => {
                let seat = session as usize * 64 + fd as usize;
                self.files.open(seat, file);
                Ok(fd)
            }
            Err(refusal) => Err(refusal),
        }
    }

    /// Closes a descriptor, if it is open, and returns the live file that no descriptor has any more.
    pub fn close_if_open(&mut self, session: u32, fd: u32) -> Option<u16>
        ensures in_use { in_use_of self.new ≡ record (in_use_of self.old) { descriptors = closed (in_use_of self.old).descriptors session fd; room = (in_use_of self.new).room } }
        ensures released { result ≡ released_if (closed (in_use_of self.old).descriptors session fd) (finite.get (in_use_of self.old).descriptors (session, fd)) }
        ensures room { (in_use_of self.old).room ≤ (in_use_of self.new).room }
    {
        self.files.close(seat_of(session, fd)?)
    }

    /// Closes a descriptor, and returns the live file that no descriptor has any more. It is EBADF where
    /// nothing is open, and then nothing changes.
    pub fn close(&mut self, session: u32, fd: u32) -> Result<Option<u16>, Refusal>
        ensures told { result ≡ closing (in_use_of self.old).descriptors session fd }
        ensures ok { OnOk result (in_use_of self.new ≡ record (in_use_of self.old) { descriptors = closed (in_use_of self.old).descriptors session fd; room = (in_use_of self.new).room }) }
        ensures err { OnErr result (in_use_of self.new ≡ in_use_of self.old) }
        ensures room { (in_use_of self.old).room ≤ (in_use_of self.new).room }
    {
        self.get(session, fd)?;
        Ok(self.close_if_open(session, fd))
    }

    /// Sets the offset of a descriptor, if it is open.
    pub fn set_offset(&mut self, session: u32, fd: u32, offset: u64)
        ensures { in_use_of self.new ≡ record (in_use_of self.old) { descriptors = moved_to (in_use_of self.old).descriptors session fd offset } }
    {
        if let Some(seat) = seat_of(session, fd) {
            self.files.set_offset(seat, offset);
        }
    }

    /// Sets the offset of a descriptor. It is EBADF where nothing is open, and EINVAL where no file can
    /// be so large, and then nothing changes.
    pub fn seek(
        &mut self,
        limits: &Limits,
        session: u32,
        fd: u32,
        offset: u64,
    ) -> Result<(), Refusal>
        ensures { Seeks result (sought limits.now (in_use_of self.old).descriptors session fd offset) (in_use_of self.old) (in_use_of self.new) }
    {
        self.get(session, fd)?;
        if offset > limits.largest_file {
            return Err(Refusal::plain(Errno::Einval));
        }
        self.set_offset(session, fd, offset);
        Ok(())
    }

    /// Closes all that a session has open.
    fn close_all(&mut self, session: u32) -> Released
        ensures in_use { in_use_of self.new ≡ record (in_use_of self.old) { descriptors = without_session (in_use_of self.old).descriptors session; room = (in_use_of self.new).room } }
        ensures released { AreReleased (in_use_of self.old).descriptors (in_use_of self.new).descriptors result.items }
        ensures few { array_vec_len result + live_in (in_use_of self.new).descriptors ≤ live_in (in_use_of self.old).descriptors }
        ensures room { (in_use_of self.old).room ≤ (in_use_of self.new).room }
    {
        let mut released = Released::new();
        for fd in 0..DESCRIPTORS {
            let number = self.close_if_open(session, fd);
            push_some(&mut released, number);
        }
        released
    }

    /// Logs a session out and closes all that it has open, and returns the live files that no descriptor
    /// has any more.
    pub fn logout(&mut self, session: u32) -> Released
        ensures in_use { in_use_of self.new ≡ record (in_use_of self.old) { sessions = slice_set (in_use_of self.old).sessions session None; descriptors = without_session (in_use_of self.old).descriptors session; room = (in_use_of self.new).room } }
        ensures released { AreReleased (in_use_of self.old).descriptors (in_use_of self.new).descriptors result.items }
        ensures few { array_vec_len result + live_in (in_use_of self.new).descriptors ≤ live_in (in_use_of self.old).descriptors }
        ensures room { (in_use_of self.old).room ≤ (in_use_of self.new).room }
    {
        let released = self.close_all(session);
        if let Some(slot) = self.sessions.get_mut(session as usize) {
            *slot = None;
        }
        released
    }

    /// Logs everybody out and closes everything, as when the sessions were made.
    pub fn clear(&mut self)
        ensures in_use { in_use_of self.new ≡ nothing_in_use (in_use_of self.new).room }
        ensures room { (in_use_of self.old).room ≤ (in_use_of self.new).room }
    {
        for session in 0..SESSIONS {
            self.logout(session);
        }
    }

    /// Whether a descriptor has the live file with this number.
    ///
    /// Proved, also of `close` and `logout`: Whether a descriptor has a live file is a look-up; a close or a logout returns
    /// each live file that lost its last descriptor, once.
    pub fn is_held(&self, number: u16) -> bool
        ensures { result ≡ is_held_in (in_use_of self.now).descriptors number }
    {
        self.files.holders(number) > 0
    }

    /// How many descriptors have live files. It is kept, and not counted anew.
    ///
    /// Proved, also of `logout`: How many descriptors have live files is kept; a logout takes one at least for each file
    /// that it returns.
    pub fn live(&self) -> u16
        ensures { result ≡ live_in (in_use_of self.now).descriptors }
    {
        self.files.live()
    }

    /// Whether any descriptor has a file of this tree, live or frozen: it passes over all of them once.
    ///
    /// Proved: The test is exact whether any descriptor has a file of a tree, live or frozen, and is one pass.
    pub fn has_open(&self, home: &Home) -> bool
        ensures { IsTrue result ↔ HasOpen (in_use_of self.now).descriptors home.now }
    {
        self.files.has_open(home)
    }
}
