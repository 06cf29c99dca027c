//! The lines of reports.

use percent_encoding::percent_encode_byte;
use sn_host_names::{is_host_name, to_image};
use sn_import_run::Why;
use std::io;
use std::io::Write;

// Of a longer name the front is written.
const SHOWN_MAX: usize = 1023;

fn write_byte<W: Write>(out: &mut W, byte: u8) -> io::Result<()> {
    if byte.is_ascii_graphic() {
        out.write_all(&[byte])
    } else {
        out.write_all(percent_encode_byte(byte).as_bytes())
    }
}

// As an image spells the name, and where it can't, without control bytes.
fn write_component<W: Write>(out: &mut W, component: &[u8]) -> io::Result<()> {
    if is_host_name(component) {
        if let Some(name) = to_image(component) {
            return out.write_all(name.as_slice());
        }
    }
    for byte in component {
        write_byte(out, *byte)?;
    }
    Ok(())
}

fn write_name<W: Write>(out: &mut W, name: &[u8]) -> io::Result<()> {
    let shown = &name[..name.len().min(SHOWN_MAX)];
    let mut is_first = true;
    for component in shown.split(|byte| *byte == b'/') {
        if !is_first {
            out.write_all(b"/")?;
        }
        is_first = false;
        write_component(out, component)?;
    }
    Ok(())
}

// Of a directory whose rights are set at the end no place is known, and its path is one of the image.
fn write_line<W: Write>(out: &mut W, entry: Option<u64>, name: &[u8], why: Why) -> io::Result<()> {
    match entry {
        Some(number) => {
            write!(out, "snapfs: entry {number}")?;
            if !name.is_empty() {
                out.write_all(b" ")?;
            }
            write_name(out, name)?;
        }
        None => {
            out.write_all(b"snapfs: directory ")?;
            out.write_all(name)?;
        }
    }
    writeln!(out, ": {why}")
}

/// Writes the line of a report. One that can't be written is lost, and the import goes on.
pub(crate) fn write_report<W: Write>(out: &mut W, entry: Option<u64>, name: &[u8], why: Why) {
    let _ = write_line(out, entry, name, why);
}
