//! A law for whoever knows which changes were appended.
ghost use Rattle.sn_log.specs.Laws.{ReplayFindsTheNext};

use sn_record::payloads_differ;

/// Where the records of an epoch are those of some changes, replay finds these one after the other,
/// and then the end.
///
/// Proved: Where the records are those of some changes, replay finds these one after the other.
pub fn replay_finds_the_next()
    ensures { ReplayFindsTheNext }
{
    payloads_differ();
}
