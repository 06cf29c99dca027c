//! The commands that there are.
ghost use Rattle.std.specs.Prelude.{◌≡◌, false, IfOk, IfErr};
ghost use Rattle.clap.specs.Words.{app_of, rule_of};
ghost use Rattle.clap.specs.declared.builder.command.Command.TheViews.{out-Command as fields_of};
ghost use Rattle.sn_command.specs.Commands.{optional, required, mkfs, run, stop_at, check, export, import, serve, snapfs};
ghost use Rattle.sn_command.specs.declared.fault.WordsFault.TheVariants as fault;

use crate::fault::WordsFault;
use clap::{Arg, Command};
use std::alloc::Global;

/// A word that has to be there.
fn word<'a>(alloc: Global, name: &'a str) -> Arg<'a>
    ensures rule { rule_of result ≡ required name.entry.now }
    ensures local { result.global ≡ false }
{
    Arg::new(alloc, name).required(true)
}

/// A word that may be there.
fn last_word<'a>(alloc: Global, name: &'a str) -> Arg<'a>
    ensures rule { rule_of result ≡ optional name.entry.now }
    ensures local { result.global ≡ false }
{
    Arg::new(alloc, name)
}

fn mkfs<'a>(alloc: Global) -> Result<Command<'a>, WordsFault>
    ensures app { IfOk result (λ c. app_of c ≡ mkfs) }
    ensures memory { IfErr result (λ why. why ≡ fault.Memory) }
    ensures local { IfOk result (λ c. (fields_of c).has_globals ≡ false) }
{
    let command = Command::new(alloc, "mkfs")
        .arg(word(alloc, "IMAGE"))?
        .arg(word(alloc, "BLOCKS"))?;
    Ok(command)
}

fn run<'a>(alloc: Global) -> Result<Command<'a>, WordsFault>
    ensures app { IfOk result (λ c. app_of c ≡ run) }
    ensures memory { IfErr result (λ why. why ≡ fault.Memory) }
    ensures local { IfOk result (λ c. (fields_of c).has_globals ≡ false) }
{
    let command = Command::new(alloc, "run")
        .arg(word(alloc, "IMAGE"))?
        .arg(word(alloc, "SCRIPT"))?;
    Ok(command)
}

fn stop_at<'a>(alloc: Global) -> Result<Command<'a>, WordsFault>
    ensures app { IfOk result (λ c. app_of c ≡ stop_at) }
    ensures memory { IfErr result (λ why. why ≡ fault.Memory) }
    ensures local { IfOk result (λ c. (fields_of c).has_globals ≡ false) }
{
    let command = Command::new(alloc, "stop-at")
        .arg(word(alloc, "K"))?
        .arg(word(alloc, "FILL"))?
        .arg(word(alloc, "IMAGE"))?
        .arg(word(alloc, "SCRIPT"))?
        .arg(word(alloc, "OUT"))?;
    Ok(command)
}

fn check<'a>(alloc: Global) -> Result<Command<'a>, WordsFault>
    ensures app { IfOk result (λ c. app_of c ≡ check) }
    ensures memory { IfErr result (λ why. why ≡ fault.Memory) }
    ensures local { IfOk result (λ c. (fields_of c).has_globals ≡ false) }
{
    let command = Command::new(alloc, "check").arg(word(alloc, "IMAGE"))?;
    Ok(command)
}

fn export<'a>(alloc: Global) -> Result<Command<'a>, WordsFault>
    ensures app { IfOk result (λ c. app_of c ≡ export) }
    ensures memory { IfErr result (λ why. why ≡ fault.Memory) }
    ensures local { IfOk result (λ c. (fields_of c).has_globals ≡ false) }
{
    let command = Command::new(alloc, "export")
        .arg(word(alloc, "IMAGE"))?
        .arg(word(alloc, "PATH"))?;
    Ok(command)
}

fn import<'a>(alloc: Global) -> Result<Command<'a>, WordsFault>
    ensures app { IfOk result (λ c. app_of c ≡ import) }
    ensures memory { IfErr result (λ why. why ≡ fault.Memory) }
    ensures local { IfOk result (λ c. (fields_of c).has_globals ≡ false) }
{
    let command = Command::new(alloc, "import")
        .arg(word(alloc, "IMAGE"))?
        .arg(word(alloc, "PATH"))?;
    Ok(command)
}

fn serve<'a>(alloc: Global) -> Result<Command<'a>, WordsFault>
    ensures app { IfOk result (λ c. app_of c ≡ serve) }
    ensures memory { IfErr result (λ why. why ≡ fault.Memory) }
    ensures local { IfOk result (λ c. (fields_of c).has_globals ≡ false) }
{
    let command = Command::new(alloc, "serve")
        .arg(word(alloc, "IMAGE"))?
        .arg(last_word(alloc, "CHECKER"))?;
    Ok(command)
}

/// All of them. Help is none: it is refused as any other word is.
pub(crate) fn commands<'a>(alloc: Global) -> Result<Command<'a>, WordsFault>
    ensures app { IfOk result (λ c. app_of c ≡ snapfs) }
    ensures memory { IfErr result (λ why. why ≡ fault.Memory) }
{
    let command = Command::new(alloc, "snapfs")
        .no_binary_name(true)
        .subcommand_required(true)
        .disable_help_subcommand(true)
        .subcommand(mkfs(alloc)?)?
        .subcommand(run(alloc)?)?
        .subcommand(stop_at(alloc)?)?
        .subcommand(check(alloc)?)?
        .subcommand(export(alloc)?)?
        .subcommand(import(alloc)?)?
        .subcommand(serve(alloc)?)?;
    Ok(command)
}
