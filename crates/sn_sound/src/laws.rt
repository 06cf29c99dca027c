//! The laws that the definitions of `specs/` keep.
ghost use Rattle.sn_sound.specs.Laws.{CleanHasAVerdict, CleanIsNotFaulty, CoversAreChargedAlike, FreeIsCounted, ImagesHoldOneWorld, SoundDisksHaveNoFault, SoundDisksOpen, SoundDisksOpenToWorlds, SoundImagesHoldAWorld, SoundRootsHaveNoFault, SoundRootsLieInData, SoundnessIsOfTheReach, StandingDisksAreSound, StandingRootsAreSound};

/// A fault makes a disk unsound.
///
/// Proved: A fault at a block makes the root, and the whole disk, unsound, so a check that reports only faults that are
/// there, and is clean only where the disk is sound, is exact.
/// Proved: A disk that is clean isn't faulty, and not without a verdict but for want of memory or a failure of the device.
/// Proved: Where the map has what the roots reach, the free blocks are its words that are 0.
pub fn fault_laws()
    ensures root { SoundRootsHaveNoFault }
    ensures disk { SoundDisksHaveNoFault }
    ensures faulty { CleanIsNotFaulty }
    ensures verdict { CleanHasAVerdict }
    ensures free { FreeIsCounted }
{}

/// What a sound disk opens to.
///
/// Proved: A sound disk opens to a world, and to one alone.
/// Proved: A sound disk opens to a world that a mount may find: its trees are name trees within the limits of the root's
/// version, the frozen ones have names of snapshots, and no live file is without a name.
pub fn opening_laws()
    ensures opens { SoundDisksOpen }
    ensures worlds { SoundDisksOpenToWorlds }
    ensures holds { SoundImagesHoldAWorld }
    ensures one { ImagesHoldOneWorld }
{}

/// What is so of the root of a mounted file system.
///
/// Proved: Whether a root is sound depends on the blocks that it reaches.
/// Proved: Where a mounted file system's root is in place (`RootStands`), it is sound, with snapshots and map, in whatever a
/// crash leaves.
/// Proved: Where the log on top of that root is in place too (`LogStands`), whatever a crash leaves is a sound disk.
/// Proved: What a sound root and its snapshots reach is in the data area.
pub fn standing_laws()
    ensures data { SoundRootsLieInData }
    ensures reach { SoundnessIsOfTheReach }
    ensures crash { StandingRootsAreSound }
    ensures disk { StandingDisksAreSound }
{}

/// A call is charged alike over the live tree and over the one that replay makes.
///
/// Proved: A change is charged alike on the live tree and on the one that replay makes.
pub fn charge_laws()
    ensures covers { CoversAreChargedAlike }
{}
