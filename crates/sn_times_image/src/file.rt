//! The file beside an image.
ghost use Rattle.std.specs.Prelude.{◌≡◌, ◌++◌, IfOk, string_bytes};

use std::alloc::Global;
use std::fs::{Files, OpenFile, OpenOptions};
use std::os::unix::fs::{FileExt, OpenOptionsExt};
use std::{fs, io};

/// Who may read and write it: its owner.
const MODE: u32 = 0o600;

/// The most bytes that are read: those of some 100,000 objects in each of 32 trees are fewer.
const LONGEST: u64 = 1 << 27;

/// The path of the file, and that of one which is to take its place.
fn path_of(alloc: Global, image: &str, ending: &str) -> io::Result<String>
    ensures { IfOk result (λ path. string_bytes path ≡ image.now ++ ending.now) }
{
    Ok(format!(in alloc; "{image}{ending}")?)
}

/// What the file has, which is removed. An error where there is none, where it isn't a regular file or is too long, or where it can't be
/// read or removed.
pub(crate) fn take<R: Files + AllocGlobal>(rt: &R, image: &str) -> io::Result<Vec<u8>> {
    let path = path_of(rt.alloc(), image, ".times")?;
    let metadata = fs::symlink_metadata(rt, path.as_str())?;
    if !metadata.is_file() || metadata.len() > LONGEST {
        return Err(io::ErrorKind::InvalidData.into());
    }
    let bytes = fs::read(rt, path.as_str())?;
    fs::remove_file(rt, path.as_str())?;
    Ok(bytes)
}

/// Writes a new file, whose bytes are stored then.
fn write_new<F: OpenFile + FileExt + Drop, R: Files<File = F>>(
    rt: &R,
    path: &str,
    bytes: &[u8],
) -> io::Result<()> {
    let mut how = OpenOptions::new();
    let file = how.write(true).create_new(true).mode(MODE).open(rt, path)?;
    file.write_all_at(bytes, 0)?;
    file.sync_all()
}

/// Puts a file with these bytes in the place of whatever has its path. It is made anew under another path and renamed, so no link is
/// followed. Where that fails, what had the path stays.
pub(crate) fn leave<F: OpenFile + FileExt + Drop, R: Files<File = F> + AllocGlobal>(
    rt: &R,
    image: &str,
    bytes: &[u8],
) -> io::Result<()> {
    let new = path_of(rt.alloc(), image, ".times.new")?;
    let path = path_of(rt.alloc(), image, ".times")?;
    let _ = fs::remove_file(rt, new.as_str());
    write_new(rt, new.as_str(), bytes)?;
    fs::rename(rt, new.as_str(), path.as_str())
}
