ghost use Rattle.std.specs.Prelude.{◌≡◌, true, map, Err, IfOk, IfErr};
ghost use Rattle.std.specs.List.{list_any};
ghost use Rattle.sn_command.specs.Tasks.{AsksFor};
ghost use Rattle.sn_command.specs.Words.{is_misfit};
ghost use Rattle.sn_command.specs.declared.command.Task.{Task as Asked};
ghost use Rattle.sn_command.specs.declared.fault.WordsFault.TheVariants as fault;

use crate::commands::commands;
use crate::fault::WordsFault;
use crate::task::task_of;
use sn_device::Fill;
use std::alloc::Global;
use std::convert::AsStr;

/// What the command line asks for.
#[derive(Clone, Copy, PartialEq, Eq)]
pub enum Task<'a> {
    /// Makes an image of so many blocks, in the place of what the file has.
    Mkfs {
        image: &'a str,
        blocks: u32,
    },
    /// Runs a script on an image.
    Run {
        image: &'a str,
        script: &'a str,
    },
    /// Runs a script on a copy of an image that takes so many writes and then crashes. What is left
    /// goes to another file.
    StopAt {
        cut: u32,
        fill: Fill,
        image: &'a str,
        script: &'a str,
        out: &'a str,
    },
    /// Checks an image.
    Check {
        image: &'a str,
    },
    /// Writes the tree at a path of an image as an archive.
    Export {
        image: &'a str,
        path: &'a str,
    },
    /// Makes what an archive holds below the directory at a path of an image.
    Import {
        image: &'a str,
        path: &'a str,
    },
    /// Answers the messages of a mount over an image.
    Serve {
        image: &'a str,
        checker: Checker,
    },
}

/// Who checks what the messages of a mount may do.
#[derive(Clone, Copy, PartialEq, Eq, Debug)]
pub enum Checker {
    /// The program.
    Program,
    /// The kernel, before it sends them.
    Kernel,
}

/// An empty word, or one that begins with a dash: there are no options.
fn is_misfit(word: &str) -> bool
    ensures { result ≡ is_misfit word.now }
{
    word.is_empty() || word.starts_with('-')
}

fn has_misfit<S: AsStr>(words: &[S]) -> bool
    ensures { result ≡ list_any (λ word. is_misfit (S.text word)) words.now }
{
    words.iter().any(|word| is_misfit(word.as_str()))
}

/// What the words ask for, which are `clap`'s to read. `Usage` where they ask for nothing.
///
/// Proved: Words of which one is empty or begins with a dash are no command.
/// Proved: A task comes only of its own words: the command's name, as many words as it takes, numbers of 32 bits in decimal
/// without leading zeros, one of the five words for a crash, and at the end of `serve` nothing or the word `kernel`.
/// Proved: Words that ask for a task are refused only for want of memory, so what else is said is usage.
pub fn parse<'a, S: AsStr>(alloc: Global, words: &'a [S]) -> Result<Task<'a>, WordsFault>
    ensures misfits { list_any (λ word. is_misfit (S.text word)) words.now ≡ true → result ≡ Err fault.Usage }

    // A task comes only of its own words, and what words ask for is refused only for want of memory.
    ensures asked { IfOk result (AsksFor (map S.text words.now)) }
    ensures known { (task : Asked) → AsksFor (map S.text words.now) task → IfErr result (λ why. why ≡ fault.Memory) }
{
    if has_misfit(words) {
        return Err(WordsFault::Usage);
    }
    let matches = commands(alloc)?.try_get_matches_from(words)?;
    match matches.subcommand() {
        Some((name, found)) => task_of(name, found),
        None => Err(WordsFault::Usage),
    }
}
