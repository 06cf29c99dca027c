ghost use Rattle.std.specs.Prelude.{◌≡◌, ◌<◌, ◌++◌, OnOk, IfOk, codes};
ghost use Rattle.std.specs.List.{flat_map};
ghost use Rattle.std.specs.Option.{option_map_or};
ghost use Rattle.sn_acl.specs.Text.{acl_text};
ghost use Rattle.sn_words.specs.Fields.{octal, content_word};
ghost use Rattle.sn_script.specs.Replies.{kind_name, status_mode, status_line, names_line, reply_line};

use sn_limits::Kind;
use sn_model::{FileData, FileStatus, Names, Reply, StoredAcl};
use std::alloc::{AllocError, Global};
use std::io;
use std::io::Write;

fn kind_name(kind: Kind) -> &'static str
    ensures { result.now ≡ kind_name kind }
{
    match kind {
        Kind::File => "f",
        Kind::Directory => "d",
    }
}

/// The bits of <sys/stat.h>.
fn status_mode(status: &FileStatus) -> u16
    ensures value { result ≡ status_mode status.now }
    ensures within { result < 4096 }
{
    let set_gid = if status.set_gid { 1024 } else { 0 };
    let sticky = if status.sticky { 512 } else { 0 };
    set_gid + sticky + status.mode.bits()
}

fn push_octal(text: &mut Vec<u8>, number: u16) -> io::Result<()>
    requires { number < 4096 }
    ensures { OnOk result (text.new.items ≡ text.old.items ++ octal number) }
{
    write!(
        text,
        "{}{}{}{}",
        number / 512,
        number / 64 % 8,
        number / 8 % 8,
        number % 8
    )
}

fn push_status(text: &mut Vec<u8>, status: &FileStatus) -> io::Result<()>
    ensures { OnOk result (text.new.items ≡ text.old.items ++ status_line status.now) }
{
    let FileStatus {
        links,
        owner,
        group,
        size,
        ..
    } = *status;
    let kind = kind_name(status.kind);
    write!(text, "ok {kind} ")?;
    push_octal(text, status_mode(status))?;
    writeln!(text, " {links} {owner} {group} {size}")
}

fn push_mode(text: &mut Vec<u8>, bits: u16) -> io::Result<()>
    requires { bits < 4096 }
    ensures { OnOk result (text.new.items ≡ text.old.items ++ codes "ok " ++ octal bits ++ codes "\n") }
{
    write!(text, "ok ")?;
    push_octal(text, bits)?;
    writeln!(text)
}

fn push_content(alloc: Global, text: &mut Vec<u8>, content: &FileData) -> io::Result<()>
    ensures { OnOk result (text.new.items ≡ text.old.items ++ codes "ok " ++ content_word content.now ++ codes "\n") }
{
    let bytes = content.as_bytes();
    if bytes.is_empty() {
        return writeln!(text, "ok -");
    }
    let digits = hex::encode(alloc, bytes)?;
    writeln!(text, "ok {digits}")
}

fn push_names(text: &mut Vec<u8>, names: &Names) -> io::Result<()>
    ensures { OnOk result (text.new.items ≡ text.old.items ++ names_line names.now) }
{
    write!(text, "ok")?;
    for name in names.as_slice() {
        text.push(b' ')?;
        text.extend_from_slice(name.as_bytes())?;
    }
    writeln!(text)
}

fn push_acl(text: &mut Vec<u8>, acl: &Option<StoredAcl>) -> io::Result<()>
    ensures { OnOk result (text.new.items ≡ text.old.items ++ codes "ok " ++ option_map_or acl_text acl.now (codes "-") ++ codes "\n") }
{
    match acl {
        None => writeln!(text, "ok -"),
        Some(acl) => {
            let printed = acl.to_acl().print();
            writeln!(text, "ok {}", printed.as_str())
        }
    }
}

fn push_reply(alloc: Global, text: &mut Vec<u8>, reply: &Reply) -> io::Result<()>
    ensures { OnOk result (text.new.items ≡ text.old.items ++ reply_line reply.now) }
{
    match reply {
        Reply::Done => writeln!(text, "ok"),
        Reply::Mode(mode) => push_mode(text, mode.bits()),
        Reply::Number(number) => writeln!(text, "ok {number}"),
        Reply::Content(content) => push_content(alloc, text, content),
        Reply::Status(status) => push_status(text, status),
        Reply::Names(names) => push_names(text, names),
        Reply::Acl(acl) => push_acl(text, acl),
        Reply::Progress(progress) => writeln!(text, "ok {progress}"),
        Reply::Refused(refusal) => writeln!(text, "err {refusal}"),
        Reply::Unmounted(fault) => writeln!(text, "fault {fault}"),
    }
}

/// The lines of replies, one for each.
///
/// Proved: The printed text is the one spelling of the replies.
pub fn print_replies(alloc: Global, replies: &[Reply]) -> Result<Vec<u8>, AllocError>
    ensures { IfOk result (λ text. text.items ≡ flat_map reply_line replies.now) }
{
    let mut text = Vec::new(alloc);
    for reply in replies {
        // Nothing but memory can be wanting where text is appended to a list of bytes.
        if push_reply(alloc, &mut text, reply).is_err() {
            return Err(AllocError);
        }
    }
    Ok(text)
}
