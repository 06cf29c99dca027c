//! Why there is no overlay of a change.
ghost use Rattle.std.specs.Prelude.{◌≡◌};
ghost use Rattle.sn_overlay_change.specs.declared.fault.LayerFault.TheVariants.{Memory};

use std::alloc::AllocError;

/// Why there is no overlay of a change.
#[derive(Drop)]
pub enum LayerFault<F> {
    /// Memory was refused.
    Memory,
    /// The tree below wasn't read.
    Below(F),
}

impl<F> From<AllocError> for LayerFault<F> {
    ghost from_gives = { λ _ fault. fault ≡ Memory };

    fn from(_error: AllocError) -> LayerFault<F> {
        LayerFault::Memory
    }
}
