//! The laws that the definitions of `specs/` keep.
ghost use Rattle.sn_ondisk.specs.BlockLaws.{BytesFollow, BlocksAreWhole, GatesAreRead};
ghost use Rattle.sn_ondisk.specs.GateLaws.{GateAddsOneOrNone, OpenGateAddsOne, AppendAddsOneOrNone, ClearingStops, ClearingKeepsTheRecords, ClearingAddsNoLater, ClosingKeepsTheRoot, BodyKeepsTheRoot, OpeningChangesTheRootOrNot, OpenRootIsNewest, OpeningShowsEither, ClosingShowsTheSame, BodyShowsTheSame, AppendShowsOneMore, AppendShowsOneNewer};
ghost use Rattle.sn_ondisk.specs.PlaceLaws.{RootsLieInTheirAreas, HalvesAreTheirAreas, EpochsAlternate, AreasAreApart};
ghost use Rattle.sn_ondisk.specs.OneAnswer.{RecordIsOne, ReadyIsReplayed, ReplayIsOne, RecordHasItsEpoch, LaterReplaysNothing, RootIsOne, NewestIsOne, ShownIsOne};
ghost use Rattle.sn_ondisk.specs.TreeLaws.{TreesDependOnTheirReach, TreesDependOnTheirSectors, ReachHasEveryPointer, ReachHasNoHole, EntriesAreTheirLevel, BytesAreOfTheirBlock, LevelsHaveRoom, LevelsAreLeast};
ghost use Rattle.sn_ondisk.specs.CountLaws.{NamedIsCounted, JoinedAddUp, LevelsAddUp, ReachIsCounted, LevelsAreFull};
ghost use Rattle.sn_ondisk.specs.MapLaws.{WordsAreThoseSpelled, MapIsOne, MapsDependOnTheirSectors, WordsDependOnTheirSectors, BlocksMakeTheMap, MapIsOfItsBlocks};
ghost use Rattle.sn_ondisk.specs.Footprints.{BlocksDependOnTheirSectors, RootsDependOnTheirBlock, NewestDependsOnTheRoots, RecordsDependOnTheirBody, ReadyDependsOnItsSectors, NoLaterDependsOnTheFirstPlace, ReplaysDependOnTheHalf, ShownDependsOnRootsAndLog};

/// What the write of a record's gate, or of the sector that clears a place, does to a log half,
/// whether it was done or torn.
///
/// Proved: A torn write of a record's gate leaves the records as they were or with the new one.
/// Proved, also of `root_gate_laws`: Closing an open gate, writing after a closed one and clearing a place lose nothing.
pub fn log_gate_laws()
    ensures adds_one_or_none { GateAddsOneOrNone }
    ensures open_adds_one { OpenGateAddsOne }
    ensures append { AppendAddsOneOrNone }
    ensures clearing_stops { ClearingStops }
    ensures clearing_keeps { ClearingKeepsTheRecords }
    ensures clearing_adds { ClearingAddsNoLater }
{}

/// What the write of a slot's gate, or of the body after a closed one, does to the newest root,
/// whether it was done or torn.
///
/// Proved, also of `shown_laws`: A torn write of a root's gate leaves the old root with its records or the new one with its
/// own.
pub fn root_gate_laws()
    ensures closing { ClosingKeepsTheRoot }
    ensures body { BodyKeepsTheRoot }
    ensures opening { OpeningChangesTheRootOrNot }
    ensures opened { OpenRootIsNewest }
{}

/// What each of these writes does to what the disk shows.
pub fn shown_laws()
    ensures opening { OpeningShowsEither }
    ensures closing { ClosingShowsTheSame }
    ensures body { BodyShowsTheSame }
    ensures append { AppendShowsOneMore }
    ensures append_newer { AppendShowsOneNewer }
{}

/// The sectors that each reading depends on.
///
/// Proved, also of `tree_laws` and `map_laws`: Each reading depends on named sectors alone.
pub fn footprints()
    ensures blocks { BlocksDependOnTheirSectors }
    ensures roots { RootsDependOnTheirBlock }
    ensures newest { NewestDependsOnTheRoots }
    ensures records { RecordsDependOnTheirBody }
    ensures ready { ReadyDependsOnItsSectors }
    ensures no_later { NoLaterDependsOnTheFirstPlace }
    ensures replays { ReplaysDependOnTheHalf }
    ensures shown { ShownDependsOnRootsAndLog }
{}

/// What a block tree names and holds, and on which blocks that depends.
pub fn tree_laws()
    ensures depends { TreesDependOnTheirReach }
    ensures sectors { TreesDependOnTheirSectors }
    ensures every { ReachHasEveryPointer }
    ensures no_hole { ReachHasNoHole }
    ensures entries { EntriesAreTheirLevel }
    ensures bytes { BytesAreOfTheirBlock }
    ensures levels { LevelsHaveRoom }
    ensures least { LevelsAreLeast }
{}

/// How often pointers lead to a block: they add up along lists and down a level.
///
/// Proved: How often pointers lead to a block adds up along lists and down a level, and so counts what a tree reaches.
pub fn count_laws()
    ensures named { NamedIsCounted }
    ensures joined { JoinedAddUp }
    ensures levels { LevelsAddUp }
    ensures reach { ReachIsCounted }
    ensures full { LevelsAreFull }
{}

/// What a slot's copy of the block map holds, on which sectors that depends, and how its blocks make
/// it, each of them spelled by `sn_layout::put_map_words`.
///
/// Proved: A map copy holds its words exactly where each of its blocks is spelled with its part of them.
pub fn map_laws()
    ensures words { WordsAreThoseSpelled }
    ensures one { MapIsOne }
    ensures depends { MapsDependOnTheirSectors }
    ensures word_depends { WordsDependOnTheirSectors }
    ensures made { BlocksMakeTheMap }
    ensures blocks { MapIsOfItsBlocks }
{}

/// Each reading of a log half has one answer.
///
/// Proved, also of `root_is_one` and `map_laws`: Each reading has one answer.
pub fn log_is_one()
    ensures record { RecordIsOne }
    ensures ready { ReadyIsReplayed }
    ensures replay { ReplayIsOne }
    ensures epoch { RecordHasItsEpoch }
    ensures later { LaterReplaysNothing }
{}

/// So has each reading of the roots, and what a disk shows is one root with one list of records.
pub fn root_is_one()
    ensures root { RootIsOne }
    ensures newest { NewestIsOne }
    ensures shown { ShownIsOne }
{}

/// Where roots, map copies and log halves lie.
///
/// Proved, also of `block_laws`: Roots, map copies and log halves lie apart; a block on the disk is whole.
pub fn place_laws()
    ensures roots { RootsLieInTheirAreas }
    ensures halves { HalvesAreTheirAreas }
    ensures epochs { EpochsAlternate }
    ensures apart { AreasAreApart }
{}

/// The bytes of sectors and blocks, and what the first of a gate's sector says.
pub fn block_laws()
    ensures follow { BytesFollow }
    ensures whole { BlocksAreWhole }
    ensures gates { GatesAreRead }
{}
