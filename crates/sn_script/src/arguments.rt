ghost use Rattle.std.specs.Prelude.{map};
ghost use Rattle.sn_words.specs.Reading.{IsRead};
ghost use Rattle.sn_script.specs.Reading.{path_of, paths_of, path_mode_of, descriptor_of, descriptor_number_of};

use sn_model::Word;
use sn_words::SpellingFault;
use sn_words::field::{long_number, number, octal, word};
use std::alloc::Global;

#[tactic(auto, unfolding(crate::specs::Reading::path_of))]
pub(crate) fn path(alloc: Global, arguments: &[&[u8]]) -> Result<Word, SpellingFault>
    ensures { IsRead (λ p. p) result (path_of (map (λ w. w.now) arguments.now)) }
{
    let &[path] = arguments else {
        return Err(SpellingFault::Bad);
    };
    word(alloc, path)
}

/// The old path and the new one.
#[tactic(auto, unfolding(crate::specs::Reading::paths_of))]
pub(crate) fn paths(alloc: Global, arguments: &[&[u8]]) -> Result<(Word, Word), SpellingFault>
    ensures { IsRead (λ p. p) result (paths_of (map (λ w. w.now) arguments.now)) }
{
    let &[old, new] = arguments else {
        return Err(SpellingFault::Bad);
    };
    let old = word(alloc, old)?;
    let new = word(alloc, new)?;
    Ok((old, new))
}

#[tactic(auto, unfolding(crate::specs::Reading::path_mode_of))]
pub(crate) fn path_and_mode(
    alloc: Global,
    arguments: &[&[u8]],
) -> Result<(Word, u16), SpellingFault>
    ensures { IsRead (λ p. p) result (path_mode_of (map (λ w. w.now) arguments.now)) }
{
    let &[path, mode] = arguments else {
        return Err(SpellingFault::Bad);
    };
    let path = word(alloc, path)?;
    let mode = octal(mode)?;
    Ok((path, mode))
}

#[tactic(auto, unfolding(crate::specs::Reading::descriptor_of))]
pub(crate) fn descriptor(arguments: &[&[u8]]) -> Result<u32, SpellingFault>
    ensures { IsRead (λ d. d) result (descriptor_of (map (λ w. w.now) arguments.now)) }
{
    let &[fd] = arguments else {
        return Err(SpellingFault::Bad);
    };
    number(fd)
}

/// A descriptor, and a count, an offset or a size.
#[tactic(auto, unfolding(crate::specs::Reading::descriptor_number_of))]
pub(crate) fn descriptor_and_number(arguments: &[&[u8]]) -> Result<(u32, u64), SpellingFault>
    ensures { IsRead (λ d. d) result (descriptor_number_of (map (λ w. w.now) arguments.now)) }
{
    let &[fd, measure] = arguments else {
        return Err(SpellingFault::Bad);
    };
    let fd = number(fd)?;
    let measure = long_number(measure)?;
    Ok((fd, measure))
}
