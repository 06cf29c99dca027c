ghost use Rattle.std.specs.Prelude.{◌≡◌, ℕ, ◌+◌, ◌<◌, ◌≤◌, ◌⊎◌, ◌↔◌, ◌++◌, List, length, IfOk, IsErrOf, IsErrAnd, MatchResult};
ghost use Rattle.sn_script.specs.Lines.{line_of, IsEvent};
ghost use Rattle.sn_script.specs.Scripts.{IsScript, IsFirstBad, BeginsBadly};
ghost use Rattle.sn_model.specs.declared.call.Event.{Event};

use crate::fault::ScriptFault;
use crate::line::event;
use sn_model::Event;
use sn_words::SpellingFault;
use sn_words::cut::cut;
use std::alloc::Global;

/// The most bytes that a script may have.
pub const SCRIPT_MAX: usize = 16_777_216;

/// The event of the first line, and the lines after it.
fn first_event(alloc: Global, script: &[u8]) -> Result<(Event, &[u8]), SpellingFault>
    ensures found { IfOk result (λ first. IsEvent first.0 × (script.now ≡ line_of first.0 ++ first.1.now)) }
    ensures bad { IsErrOf result SpellingFault.Bad → BeginsBadly script.now }
{
    let Some((line, others)) = cut(script, b'\n') else {
        return Err(SpellingFault::Bad);
    };
    let event = event(alloc, line)?;
    Ok((event, others))
}

/// The events of a script, one for each line.
///
/// Proved: A script is read exactly where it is spelled by the grammar and has at most 16,777,216 bytes, and as the events
/// that it spells.
/// Proved: A fault names the first bad line.
pub fn read_script(alloc: Global, script: &[u8]) -> Result<Vec<Event>, ScriptFault>
    // What is read is spelled so, and what is spelled so is read unless memory runs out.
    ensures found { IfOk result (λ events. IsScript events.items script.now × (length script.now ≤ 16777216)) }
    ensures only { (events : List Event) → IsScript events script.now → length script.now ≤ 16777216
        → MatchResult result (λ read. read.items ≡ events) (λ fault. fault ≡ ScriptFault.Memory) }

    // A fault names the first bad line, or 0 for a script that is too long.
    ensures long { IsErrOf result (ScriptFault.Line 0) ↔ (16777216 < length script.now) }
    ensures bad { (n : ℕ) → IsErrOf result (ScriptFault.Line (n + 1)) → IsFirstBad script.now (n + 1) }
    ensures first { (n : ℕ) → IsFirstBad script.now n → length script.now ≤ 16777216
        → IsErrAnd result (λ fault. (fault ≡ ScriptFault.Line n) ⊎ (fault ≡ ScriptFault.Memory)) }
{
    if script.len() > SCRIPT_MAX {
        return Err(ScriptFault::Line(0));
    }
    let lines = script.iter().filter(|byte| **byte == b'\n').count();
    let mut events = Vec::with_capacity(alloc, lines)?;
    let mut rest = script;
    while !rest.is_empty() {
        match first_event(alloc, rest) {
            Ok((event, others)) => {
                events.push(event)?;
                rest = others;
            }
            Err(SpellingFault::Bad) => return Err(ScriptFault::Line(events.len() + 1)),
            Err(SpellingFault::Memory) => return Err(ScriptFault::Memory),
        }
    }
    Ok(events)
}
