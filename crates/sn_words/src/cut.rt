ghost use Rattle.std.specs.Prelude.{◌≡◌, ◌<◌, ◌==◌, ◌++◌, ◌∷◌, false, All, IfSome, IfNone, map, length};
ghost use Rattle.sn_words.specs.Fields.{parts};

use arrayvec::ArrayVec;

/// What is before the first byte that is a separator, and what is after it.
///
/// Proved, also of `parts`: A text is split at a byte into its parts, or has more than there is room for.
pub fn cut(text: &[u8], separator: u8) -> Option<(&[u8], &[u8])>
    ensures found { IfSome result (λ cut. text.now ≡ cut.0.now ++ separator ∷ cut.1.now) }
    ensures first { IfSome result (λ cut. All (λ b. (b == separator) ≡ false) cut.0.now) }
    ensures none { IfNone result (All (λ b. (b == separator) ≡ false) text.now) }
{
    let at = text.iter().position(|byte| *byte == separator)?;
    Some((&text[..at], &text[at + 1..]))
}

/// The parts of a text between separators. `None` where there are more than N.
pub fn parts<const N: usize>(text: &[u8], separator: u8) -> Option<ArrayVec<&[u8], N>>
    ensures found { IfSome result (λ pieces. map (λ p. p.now) pieces.items ≡ parts separator text.now) }
    ensures many { IfNone result (N < length (parts separator text.now)) }
{
    let mut pieces = ArrayVec::new();
    let mut rest = text;
    while let Some((piece, others)) = cut(rest, separator) {
        if pieces.is_full() {
            return None;
        }
        pieces.push(piece);
        rest = others;
    }
    if pieces.is_full() {
        return None;
    }
    pieces.push(rest);
    Some(pieces)
}
