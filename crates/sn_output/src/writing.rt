ghost use Rattle.std.specs.Prelude.{◌≤◌, [], length, take, OnOk, OnErr, IfOk};
ghost use Rattle.std.specs.Io.KnownBytes.{Appends};
ghost use Rattle.sn_output.specs.Outputs.{AppendsFront};

use std::io;
use std::io::{ErrorKind, Write};

/// One write of bytes: how many the output took, none where it was interrupted.
#[tactic(auto, using(crate::proofs::OutputLemmas::kept_nothing))]
fn write_some<W: Write>(out: &mut W, text: &[u8]) -> io::Result<usize>
    ensures count { IfOk result (λ n. n ≤ length text.now) }
    ensures taken { IfOk result (λ n. Appends (W.contents out.old) (W.contents out.new) (take n text.now)) }
    ensures nothing { OnErr result (Appends (W.contents out.old) (W.contents out.new) []) }
{
    match out.write(text) {
        Ok(0) => Err(io::Error::from(ErrorKind::WriteZero)),
        Ok(count) => Ok(count),
        Err(error) => {
            if error.kind() == ErrorKind::Interrupted {
                Ok(0)
            } else {
                Err(error)
            }
        }
    }
}

/// Writes bytes as far as the output takes them. An output that keeps answering `Interrupted` is given up after 2^64 - 1 turns.
///
/// Proved: All bytes are written, or after an error the front of them, and nothing else.
pub fn write_front<W: Write>(out: &mut W, text: &[u8]) -> io::Result<()>
    ensures whole { OnOk result (Appends (W.contents out.old) (W.contents out.new) text.now) }
    ensures front { AppendsFront (W.contents out.old) (W.contents out.new) text.now }
{
    let mut rest = text;
    for _turn in 0..u64::MAX {
        if rest.is_empty() {
            return Ok(());
        }
        let count = write_some(out, rest)?;
        rest = &rest[count..];
    }
    Err(io::Error::from(ErrorKind::TimedOut))
}
