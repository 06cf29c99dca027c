//! Whether something is to recover, and an age is left for that.
ghost use Rattle.std.specs.Prelude.{◌≡◌, ◌↔◌, true, IsTrue, IfErr, OnOk};
ghost use Rattle.sn_sound.specs.Logs.{HasAgeLeft};
ghost use Rattle.sn_examine.specs.Ages.{IsAged, TellsByNumbers};

use sn_layout::{Area, Geometry, LARGEST_AGE, LogHalf, RootBody};
use sn_limits::Limits;
use sn_model::{Damage, MountFault};

/// Whether a mount of a root ends in a point of recovery: the root isn't of the version that is written, a record is logged,
/// or a file has no name. Whoever asks that asks it here.
///
/// Proved: Something is to recover exactly where the root isn't of the version that is written, a record is logged, or a
/// file of the root's tree has no name.
pub fn is_to_recover(root: &RootBody, logged: u32, nameless: u32) -> bool
    ensures { TellsByNumbers result root.now logged nameless }
{
    root.limits.version != Limits::WRITTEN.version || logged > 0 || nameless > 0
}

/// Whether a recovery has a root to write.
fn has_age_left(root: &RootBody) -> bool
    ensures { IsTrue result ↔ HasAgeLeft root.now }
{
    root.generation < LARGEST_AGE && root.epoch <= LARGEST_AGE - 2
}

/// Damaged where something is to recover and no age is left for that, which is reported at the half of the root's
/// epoch.
///
/// Proved: A root without an age left, where something is to recover, is a damage of the log too.
pub fn test_age(geometry: Geometry, root: &RootBody, recovers: bool) -> Result<(), MountFault>
    ensures left { OnOk result (recovers ≡ true → HasAgeLeft root.now) }
    ensures aged { IfErr result (λ f. IsAged f geometry root.now recovers) }
{
    if recovers && !has_age_left(root) {
        return Err(MountFault::Damaged {
            damage: Damage::Log,
            block: geometry
                .range(Area::Log(LogHalf::of_epoch(root.epoch)))
                .start,
        });
    }
    Ok(())
}
