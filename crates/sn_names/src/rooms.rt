//! What room is left in blocks.
ghost use Rattle.std.specs.Prelude.{◌≡◌};
ghost use Rattle.sn_names.specs.Rooms.{room_is_below};

// Whether the room of a block is known, and less than this.
pub(crate) fn is_below(room: Option<u16>, least: usize) -> bool
    ensures { result ≡ room_is_below least room }
{
    match room {
        Some(room) => usize::from(room) < least,
        None => false,
    }
}
