//! Messages as they are read.
ghost use Rattle.std.specs.Prelude.{◌≡◌, ◌≢◌, Err, IfErr, IfOk, IsErrAnd, Ok, Some, pos};
ghost use Rattle.std.specs.IoError.{error_kind, raw_os_error};

use std::io;
use std::io::{ErrorKind, Read};

/// ENOENT of errno(3): the message that was being read was taken back.
const NO_ENTRY: i32 = 2;

/// ENODEV of errno(3): the mount is gone.
const NO_DEVICE: i32 = 19;

/// What a read of messages is taken for, by what the system gave.
fn read_of(given: io::Result<usize>) -> io::Result<usize>
    ensures read { IfOk given (λ count. result ≡ Ok count) }
    ensures gone { IfErr given (λ error. raw_os_error error ≡ Some (pos 19) → result ≡ Ok 0) }
    ensures again { IfErr given (λ error. raw_os_error error ≡ Some (pos 2) → IsErrAnd result (λ told. error_kind told ≡ ErrorKind.Interrupted)) }
    ensures other { IfErr given (λ error. raw_os_error error ≢ Some (pos 2) → raw_os_error error ≢ Some (pos 19) → result ≡ Err error) }
{
    let error = match given {
        Ok(count) => return Ok(count),
        Err(error) => error,
    };
    match error.raw_os_error() {
        Some(NO_DEVICE) => Ok(0),
        Some(NO_ENTRY) => Err(io::Error::from(ErrorKind::Interrupted)),
        _ => Err(error),
    }
}

/// The messages of a mount. A mount that is gone is the end of them, and a message that was taken back while it was read is an interrupted
/// read.
#[derive(Drop)]
pub struct Requests<'a, I: Read> {
    input: &'a mut I,
}

impl<'a, I: Read> Requests<'a, I> {
    pub fn of(input: &'a mut I) -> Requests<'a, I> {
        Requests { input }
    }
}

impl<'a, I: Read> Read for Requests<'a, I> {
    fn read(&mut self, buf: &mut [u8]) -> io::Result<usize> {
        read_of(self.input.read(buf))
    }
}
