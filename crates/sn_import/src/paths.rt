//! The directories that a path leads through.
ghost use Rattle.std.specs.Prelude.{◌≡◌, ◌+◌, ◌<◌, ◌≤◌, ◌∷◌, [], drop, length, take, IsNone, IfSome};
ghost use Rattle.sn_import.specs.Calls.{through_from};

use sn_words::cut::cut;

// What follows a front of so many bytes.
fn rest_of(path: &[u8], from: usize) -> &[u8]
    requires { from ≤ length path.now }
    ensures { result.now ≡ drop from path.now }
{
    &path[from..]
}

/// The first slash of a path from a place on: the end of a directory that it leads through.
#[tactic(auto, using(crate::proofs::Slashes::at_end, crate::proofs::Slashes::no_slash, crate::proofs::Slashes::slash, crate::proofs::Slashes::is_within))]
pub fn next_slash(path: &[u8], from: usize) -> Option<usize>
    ensures found { IfSome result (λ at. through_from from path.now ≡ take at path.now ∷ through_from (at + 1) path.now) }
    ensures within { IfSome result (λ at. at < length path.now) }
    ensures none { IsNone result → through_from from path.now ≡ [] }
{
    if path.len() <= from {
        return None;
    }
    let rest = rest_of(path, from);
    match cut(rest, b'/') {
        Some((component, _others)) => Some(from + component.len()),
        None => None,
    }
}
