//! Locks on whole files.

use std::fs::{File, TryLockError};
use std::io;

/// `File`'s own locks, for code that is generic over files. A lock holds for as long as the file is
/// open, and against those alone that ask for one.
pub trait LockFile {
    /// Locks it against all others. It doesn't wait for one that has it.
    fn try_lock(&self) -> Result<(), TryLockError>;

    /// Locks it against those that want it to themselves.
    fn try_lock_shared(&self) -> Result<(), TryLockError>;
}

impl LockFile for File {
    fn try_lock(&self) -> Result<(), TryLockError> {
        File::try_lock(self)
    }

    fn try_lock_shared(&self) -> Result<(), TryLockError> {
        File::try_lock_shared(self)
    }
}

/// The result of a lock. An error of kind `WouldBlock` is that of a file in use.
pub(crate) fn locked(answer: Result<(), TryLockError>) -> io::Result<()> {
    answer.map_err(|error| match error {
        TryLockError::WouldBlock => io::Error::new(io::ErrorKind::WouldBlock, "it is in use"),
        TryLockError::Error(error) => error,
    })
}
