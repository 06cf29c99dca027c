//! What USER_OBJ, GROUP_OBJ and OTHER grant, three bits each, u16.
ghost use Rattle.std.specs.Prelude.{◌≡◌, ◌+◌, ◌≤◌, length, Some, IfSome};
ghost use Rattle.sn_acl.specs.Modes.{mode_bits};
ghost use Rattle.sn_acl.specs.declared.modes.Mode.{Mode as TheMode};
ghost use Rattle.sn_layout.specs.Bytes.{Puts};
ghost use Rattle.sn_layout_acl.specs.Mode.{IsMode, mode_bytes};

use sn_acl::Mode;
use sn_layout::put_u16;

/// The mode, of which each three bits are below 8 by their type.
pub fn fitting(mode: Mode) -> Mode
    ensures same { result ≡ mode }
    ensures fits { IsMode mode }
{
    let _owner = mode.owner.bits();
    let _group = mode.group.bits();
    let _other = mode.other.bits();
    mode
}

/// The mode with these bits, if they are one.
pub fn mode_of(bits: u16) -> Option<Mode>
    ensures found { IfSome result (λ mode. IsMode mode × (bits ≡ mode_bits mode)) }
    ensures only { (mode : TheMode) → IsMode mode → bits ≡ mode_bits mode → result ≡ Some mode }
{
    let mode = Mode::from_bits(bits)?;
    Some(fitting(mode))
}

/// Writes a mode as inodes and log records have it, and answers the offset after it.
pub fn put_mode(block: &mut [u8], at: usize, mode: Mode) -> usize
    requires { at + 2 ≤ length block.old }
    ensures bytes { Puts block.old block.new at result (mode_bytes mode) }
    ensures next { result ≡ at + 2 }
{
    put_u16(block, at, mode.bits())
}
