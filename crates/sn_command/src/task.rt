//! What the words of a command ask for.
ghost use Rattle.std.specs.Prelude.{◌≡◌, ◌<◌, ◌^◌, ℕ, Some, None, codes, decimal, IfOk, IfErr, IfSome, IfNone};
ghost use Rattle.clap.specs.Words.{first_value, found_of};
ghost use Rattle.sn_device.specs.declared.fill.Fill.{Fill as Left};
ghost use Rattle.sn_command.specs.Tasks.{IsRead, checker_word, fill_word};
ghost use Rattle.sn_command.specs.declared.command.Checker.{Checker as By};
ghost use Rattle.sn_command.specs.declared.command.Task.{Task as Asked};
ghost use Rattle.sn_command.specs.declared.fault.WordsFault.TheVariants as fault;

use crate::command::{Checker, Task};
use crate::fault::WordsFault;
use clap::ArgMatches;
use sn_device::Fill;
use sn_words::field::number;

fn text<'a>(found: &ArgMatches<'a>, name: &str) -> Result<&'a str, WordsFault>
    ensures there { IfOk result (λ word. first_value (found_of found.now) name.now ≡ Some word.now) }
    ensures absent { IfErr result (λ why. first_value (found_of found.now) name.now ≡ None) }
{
    match found.get_str(name) {
        Some(word) => Ok(word),
        None => Err(WordsFault::Usage),
    }
}

/// A decimal number, without leading zeros.
fn count(found: &ArgMatches<'_>, name: &str) -> Result<u32, WordsFault>
    ensures there { IfOk result (λ n. first_value (found_of found.now) name.now ≡ Some (decimal n)) }
    ensures absent { (n : ℕ) → n < 2 ^ 32 → first_value (found_of found.now) name.now ≡ Some (decimal n)
        → IfErr result (λ why. why ≡ fault.Memory) }
{
    let word = text(found, name)?;
    Ok(number(word.as_bytes())?)
}

fn fill_named(word: &str) -> Option<Fill>
    ensures named { IfSome result (λ fill. fill_word fill ≡ Some word.now) }
    ensures nameless { IfNone result ((fill : Left) → fill_word fill ≡ Some word.now → ⊥) }
{
    match word {
        "old" => Some(Fill::Old),
        "new" => Some(Fill::New),
        "zero" => Some(Fill::Zero),
        "one" => Some(Fill::One),
        "junk" => Some(Fill::Junk),
        _ => None,
    }
}

fn mkfs<'a>(found: &ArgMatches<'a>) -> Result<Task<'a>, WordsFault>
    ensures read { IfOk result (IsRead (codes "mkfs") (first_value (found_of found.now))) }
    ensures unread { (task : Asked) → IsRead (codes "mkfs") (first_value (found_of found.now)) task → IfErr result (λ why. why ≡ fault.Memory) }
{
    Ok(Task::Mkfs {
        image: text(found, "IMAGE")?,
        blocks: count(found, "BLOCKS")?,
    })
}

fn run<'a>(found: &ArgMatches<'a>) -> Result<Task<'a>, WordsFault>
    ensures read { IfOk result (IsRead (codes "run") (first_value (found_of found.now))) }
    ensures unread { (task : Asked) → IsRead (codes "run") (first_value (found_of found.now)) task → IfErr result (λ why. why ≡ fault.Memory) }
{
    Ok(Task::Run {
        image: text(found, "IMAGE")?,
        script: text(found, "SCRIPT")?,
    })
}

fn stop_at<'a>(found: &ArgMatches<'a>) -> Result<Task<'a>, WordsFault>
    ensures read { IfOk result (IsRead (codes "stop-at") (first_value (found_of found.now))) }
    ensures unread { (task : Asked) → IsRead (codes "stop-at") (first_value (found_of found.now)) task → IfErr result (λ why. why ≡ fault.Memory) }
{
    Ok(Task::StopAt {
        cut: count(found, "K")?,
        fill: fill_named(text(found, "FILL")?).ok_or(WordsFault::Usage)?,
        image: text(found, "IMAGE")?,
        script: text(found, "SCRIPT")?,
        out: text(found, "OUT")?,
    })
}

fn check<'a>(found: &ArgMatches<'a>) -> Result<Task<'a>, WordsFault>
    ensures read { IfOk result (IsRead (codes "check") (first_value (found_of found.now))) }
    ensures unread { (task : Asked) → IsRead (codes "check") (first_value (found_of found.now)) task → IfErr result (λ why. why ≡ fault.Memory) }
{
    Ok(Task::Check {
        image: text(found, "IMAGE")?,
    })
}

fn export<'a>(found: &ArgMatches<'a>) -> Result<Task<'a>, WordsFault>
    ensures read { IfOk result (IsRead (codes "export") (first_value (found_of found.now))) }
    ensures unread { (task : Asked) → IsRead (codes "export") (first_value (found_of found.now)) task → IfErr result (λ why. why ≡ fault.Memory) }
{
    Ok(Task::Export {
        image: text(found, "IMAGE")?,
        path: text(found, "PATH")?,
    })
}

fn import<'a>(found: &ArgMatches<'a>) -> Result<Task<'a>, WordsFault>
    ensures read { IfOk result (IsRead (codes "import") (first_value (found_of found.now))) }
    ensures unread { (task : Asked) → IsRead (codes "import") (first_value (found_of found.now)) task → IfErr result (λ why. why ≡ fault.Memory) }
{
    Ok(Task::Import {
        image: text(found, "IMAGE")?,
        path: text(found, "PATH")?,
    })
}

/// Who checks: the program, or by a word of its own the kernel.
fn checker(found: &ArgMatches<'_>) -> Result<Checker, WordsFault>
    ensures there { IfOk result (λ by. first_value (found_of found.now) (codes "CHECKER") ≡ checker_word by) }
    ensures absent { (by : By) → first_value (found_of found.now) (codes "CHECKER") ≡ checker_word by → IfErr result (λ why. why ≡ fault.Memory) }
{
    match found.get_str("CHECKER") {
        None => Ok(Checker::Program),
        Some("kernel") => Ok(Checker::Kernel),
        Some(_) => Err(WordsFault::Usage),
    }
}

fn serve<'a>(found: &ArgMatches<'a>) -> Result<Task<'a>, WordsFault>
    ensures read { IfOk result (IsRead (codes "serve") (first_value (found_of found.now))) }
    ensures unread { (task : Asked) → IsRead (codes "serve") (first_value (found_of found.now)) task → IfErr result (λ why. why ≡ fault.Memory) }
{
    Ok(Task::Serve {
        image: text(found, "IMAGE")?,
        checker: checker(found)?,
    })
}

/// The task of the command with this name, whose words were found.
pub(crate) fn task_of<'a>(name: &str, found: &ArgMatches<'a>) -> Result<Task<'a>, WordsFault>
    ensures read { IfOk result (IsRead name.now (first_value (found_of found.now))) }
    ensures unread { (task : Asked) → IsRead name.now (first_value (found_of found.now)) task → IfErr result (λ why. why ≡ fault.Memory) }
{
    match name {
        "mkfs" => mkfs(found),
        "run" => run(found),
        "stop-at" => stop_at(found),
        "check" => check(found),
        "export" => export(found),
        "import" => import(found),
        "serve" => serve(found),
        _ => Err(WordsFault::Usage),
    }
}
