//! What follows from the definitions. The function does nothing: its clauses are the laws.
ghost use Rattle.std.specs.Prelude.{◌≡◌, ◌≤◌, ◌<◌, ℕ, List, [], ◌++◌, take, drop};
ghost use Rattle.sn_listings.specs.Fitting.{fitting, fitting_count};
ghost use Rattle.sn_listings.specs.Reading.{LastTells, all_bytes, next_offset, offset_after, read_bytes};
ghost use Rattle.sn_listings.specs.declared.entry.HeldEntry.{HeldEntry};

/// An answer has whole entries, the first of those from its offset on (`whole`), and the last of them tells the offset of the next one
/// (`told`). Answers of which each begins at the offset that the one before told, the first of them at 0, have the listing's entries one
/// after the other up to there (`joined`), and all of them once an answer with room for any entry has none (`ended`).
///
/// Proved: Answers from a listing that is held, of which each begins at the offset that the last entry before it told, have each entry of
/// the listing once, in its order, by the time that one with room for an entry of any name has none.
pub fn entries_are_read_once()
    ensures whole { (room place : ℕ) (entries : List HeldEntry) → fitting room place entries ≡ all_bytes place (take (fitting_count room place entries) entries) }
    ensures told { (room offset : ℕ) (listing : List HeldEntry) → 0 < fitting_count room offset (drop offset listing)
        → LastTells (fitting room offset (drop offset listing)) (next_offset room offset listing) }
    ensures joined { (rooms : List ℕ) (listing : List HeldEntry) → all_bytes 0 listing
        ≡ read_bytes rooms 0 listing ++ all_bytes (offset_after rooms 0 listing) (drop (offset_after rooms 0 listing) listing) }
    ensures ended { (rooms : List ℕ) (room : ℕ) (listing : List HeldEntry) → 280 ≤ room
        → fitting room (offset_after rooms 0 listing) (drop (offset_after rooms 0 listing) listing) ≡ [] → read_bytes rooms 0 listing ≡ all_bytes 0 listing }
{}
