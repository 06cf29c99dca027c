//! The list of groups in a text of /proc/PID/status.
ghost use Rattle.std.specs.Prelude.{◌≡◌, ◌∷◌, ◌++◌, [], All, IfNone, IfSome, IsNone, false};
ghost use Rattle.std.specs.List.{slice_split};
ghost use Rattle.std.specs.Option.{option_map};
ghost use Rattle.sn_caller_groups.specs.Status as status;
ghost use Rattle.sn_caller_groups.specs.Status.{is_line_end, lists_in};

// What is before the first line end, and what is after it.
fn cut_line(text: &[u8]) -> Option<(&[u8], &[u8])>
    ensures found { IfSome result (λ cut. text.now ≡ cut.0.now ++ 10 ∷ cut.1.now) }
    ensures first { IfSome result (λ cut. All (λ b. is_line_end b ≡ false) cut.0.now) }
    ensures none { IfNone result (All (λ b. is_line_end b ≡ false) text.now) }
{
    let at = text.iter().position(|byte| *byte == b'\n')?;
    Some((&text[..at], &text[at + 1..]))
}

fn list_in(line: &[u8]) -> Option<&[u8]>
    ensures { option_map (λ list. list.now) result ≡ status.list_in line.now }
{
    line.strip_prefix(b"Groups:")
}

// The first list in lines, and the lines after it.
fn first_list(lines: &[u8]) -> Option<(&[u8], &[u8])>
    ensures found { IfSome result (λ first. lists_in (slice_split is_line_end lines.now) ≡ first.0.now ∷ lists_in (slice_split is_line_end first.1.now)) }
    ensures none { IsNone result → lists_in (slice_split is_line_end lines.now) ≡ [] }
{
    let mut rest = lines;
    while let Some((line, others)) = cut_line(rest) {
        if let Some(list) = list_in(line) {
            return Some((list, others));
        }
        rest = others;
    }
    let list = list_in(rest)?;
    Some((list, &[]))
}

// The list of a text that has one.
pub fn list_of(text: &[u8]) -> Option<&[u8]>
    ensures { option_map (λ list. list.now) result ≡ status.list_of text.now }
{
    let lines = text.strip_suffix(b"\n")?;
    let (list, others) = first_list(lines)?;
    match first_list(others) {
        Some(_) => None,
        None => Some(list),
    }
}
