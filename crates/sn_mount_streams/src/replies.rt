//! Replies as they are written.
ghost use Rattle.std.specs.Prelude.{◌≡◌, ◌≢◌, Err, IfErr, IfOk, Ok, Some, pos};
ghost use Rattle.std.specs.IoError.{raw_os_error};

use std::io;
use std::io::Write;

/// ENOENT of errno(3): nobody waits for the reply.
const NO_ENTRY: i32 = 2;

/// What a write of so many bytes is taken for, by what the system gave.
fn written_of(given: io::Result<usize>, size: usize) -> io::Result<usize>
    ensures written { IfOk given (λ count. result ≡ Ok count) }
    ensures unwanted { IfErr given (λ error. raw_os_error error ≡ Some (pos 2) → result ≡ Ok size) }
    ensures other { IfErr given (λ error. raw_os_error error ≢ Some (pos 2) → result ≡ Err error) }
{
    let error = match given {
        Ok(count) => return Ok(count),
        Err(error) => error,
    };
    match error.raw_os_error() {
        Some(NO_ENTRY) => Ok(size),
        _ => Err(error),
    }
}

/// An output that may be a mount's. A reply that nobody waits for counts as written: no other output fails so.
#[derive(Drop)]
pub struct Replies<W: Write + Drop>(W);

impl<W: Write + Drop> Replies<W> {
    pub fn to(output: W) -> Replies<W> {
        Replies(output)
    }
}

impl<W: Write + Drop> Write for Replies<W> {
    fn write(&mut self, buf: &[u8]) -> io::Result<usize> {
        written_of(self.0.write(buf), buf.len())
    }

    fn flush(&mut self) -> io::Result<()> {
        self.0.flush()
    }
}
