//! The map of a user namespace.
ghost use Rattle.std.specs.Prelude.{◌≡◌};
ghost use Rattle.std.specs.Str.{bytes_eq};
ghost use Rattle.sn_caller_groups.specs.Map.{identity};

/// Whether this text of `/proc/self/gid_map` maps each group to itself, so that Linux shows each as it is.
///
/// Proved: A map is whole exactly where its text is the line that Linux writes for the identity on all groups.
pub fn maps_all_groups(gid_map: &[u8]) -> bool
    ensures { result ≡ bytes_eq gid_map.now identity }
{
    gid_map == b"         0          0 4294967295\n".as_slice()
}
