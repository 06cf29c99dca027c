ghost use Rattle.sn_model.specs.Denials.{AccessIsDeniedByRule};
ghost use Rattle.sn_model.specs.AccessLaws.{AccessCallsDenyByRule, AccessIsGrantedByRule, ChmodSetsTheMode, ChownSetsOwnerAndGroup, SetaclSetsOneAcl, UmaskSetsTheMask};
ghost use Rattle.sn_model.specs.ChangeLaws.{ChangesBring, ChangesKeepCovers, ChangesKeepTheTree, ChangesStay, CoveredSettleAlike, CoversItself, CoversJoin, DroppingKeepsCovers, DroppingKeepsTheTree, ListsJoin, ListsKeepCovers, ListsKeepTheTree, ListsStay, TestIsBelow, TreesStay};
ghost use Rattle.sn_model.specs.Example.{Answers, Settles};
ghost use Rattle.sn_model.specs.MachineLaws.{EventsKeepTheState, LivesKeepTheWorld, RefusedEventsChangeNothing, RestartsSettle, RunsKeepTheWorld, StoppedStays};
ghost use Rattle.sn_model.specs.FileLaws.{AppendsGoToTheEnd, ReadsAskForNoRight, ReadsPastTheEndGiveNothing, WritesOfNothingDoNothing};
ghost use Rattle.sn_model.specs.NameLaws.{FewCallsChangeNames, LinkGivesOneMoreName, ReaddirListsTheNames, RenameMovesTheName, RmdirTakesAnEmptyDirectory};
ghost use Rattle.sn_model.specs.RestoreLaws.{RestoresBringBack, RestoresLeaveAWorld, RestoresStayBeside};
ghost use Rattle.sn_model.specs.Laws.{DecidedChangesApply, DecidedChangesPay, MakesOneMore, RefusalsChangeNothing};

/// Whatever a call is refused for, the world stays as it was.
///
/// Proved: A refused call leaves the world.
pub fn refusals_change_nothing()
    ensures { RefusalsChangeNothing }
{}

/// A call that makes a node gives it one name, and leaves every other name and node as it was.
///
/// Proved: A call that makes a node gives it one name and leaves every other.
pub fn makes_one_more()
    ensures { MakesOneMore }
{}

/// What a call has decided can be applied.
///
/// Proved: What a call decides always applies.
pub fn decided_changes_apply()
    ensures { DecidedChangesApply }
{}

/// What a call has decided is charged for its change: a write by the blocks that its bytes lie in, and a
/// remove as the name leads to a file or to a directory. A restore is charged for the snapshot's files without names.
///
/// Proved: What a call decides is charged for its change, and a restore for the files without names of its snapshot.
pub fn decided_changes_pay()
    ensures { DecidedChangesPay }
{}

/// A stopped machine answers ESTOPPED to each call and step, and stays as it is.
///
/// Proved: A stopped machine answers `ESTOPPED` to all but a restart, and stays as it is.
pub fn stopped_stays()
    ensures { StoppedStays }
{}

/// Whatever a running machine refuses an event for, but for EIO, it stays as it is.
///
/// Proved: What a running machine refuses, but for `EIO`, changes nothing.
pub fn refused_events_change_nothing()
    ensures { RefusedEventsChangeNothing }
{}

/// After a restart that mounts nobody is logged in, nothing is open, and no live file is without a name.
///
/// Proved: After a restart that mounts nobody is logged in, nothing is open, and no file is without a name.
pub fn restarts_settle()
    ensures { RestartsSettle }
{}

/// Whatever happens to a machine, with whatever mishaps, a world follows, or two settled ones that
/// the next mount may find.
///
/// Proved: The live tree is a name tree over restarts and refusals too, whatever memory and device do.
pub fn events_keep_the_state()
    ensures { EventsKeepTheState }
{}

/// After every list of events from a new world on, the live tree and the frozen trees are name trees,
/// whoever is logged in has numbers of 32 bits, open files are there, and a live file without a name is
/// held.
///
/// Proved: After every run the live tree is a name tree with all its rules, each directory but the root with exactly one
/// name and reached from the root; names, numbers, ACLs, bytes and counts keep the limits; frozen trees are name trees under
/// the names of snapshots; open files are there, and a file without names is held.
pub fn runs_keep_the_world()
    ensures { RunsKeepTheWorld }
{}

/// A list of runs, each from the world that a crash in the run before has left, leaves such a world, and
/// a settled one.
///
/// Proved: The live tree is a name tree over lives of runs that a crash cuts short.
pub fn lives_keep_the_world()
    ensures { LivesKeepTheWorld }
{}

/// What a change brings is there afterwards: names, owners, ACLs, bytes.
pub fn changes_bring()
    ensures { ChangesBring }
{}

/// What a change makes of the live tree, replay makes too: a change that the live tree takes is one
/// that a tree which covers it takes, and it still covers.
///
/// Proved, also of `covered_settle_alike`: A tree that replay made, which may have files without names beside the live
/// one's, takes every change that the live tree takes, and settles to the same tree.
pub fn changes_keep_covers()
    ensures { ChangesKeepCovers }
{}

/// Files without names that are dropped from the live tree alone stay covered.
pub fn dropping_keeps_covers()
    ensures { DroppingKeepsCovers }
{}

/// Settled, a tree and one that covers it are equal.
pub fn covered_settle_alike()
    ensures { CoveredSettleAlike }
{}

/// In a hierarchy the test of a rename finds a directory below another, and nothing else.
pub fn test_is_below()
    ensures { TestIsBelow }
{}

/// A change that applies to a name tree gives a name tree: directories form a tree, nodes, names and
/// their counts keep the limits.
///
/// Proved, also of `changes_bring`: Each change that can be logged (make, link, remove, rename, write, set size, set
/// attributes) keeps the name tree where it applies, and what it brings is there afterwards.
pub fn changes_keep_the_tree()
    ensures { ChangesKeepTheTree }
{}

/// Files without names that are dropped leave a name tree.
pub fn dropping_keeps_the_tree()
    ensures { DroppingKeepsTheTree }
{}

/// The same for a list of changes.
pub fn lists_keep_the_tree()
    ensures { ListsKeepTheTree }
{}

/// What some limits allow, limits that allow no less allow too.
pub fn larger_limits_allow_as_much()
    ensures trees { TreesStay }
    ensures changes { ChangesStay }
    ensures lists { ListsStay }
{}

/// What a list of changes makes of the live tree, replay makes too.
pub fn lists_keep_covers()
    ensures { ListsKeepCovers }
{}

/// A list of changes and one after it are applied as one list.
pub fn lists_join()
    ensures { ListsJoin }
{}

/// A tree covers itself.
pub fn covers_itself()
    ensures { CoversItself }
{}

/// What covers a cover covers.
pub fn covers_join()
    ensures { CoversJoin }
{}

/// The machine on a world with a snapshot, a file without a name, and two sessions.
pub fn example_holds()
    ensures settles { Settles }
    ensures answers { Answers }
{}

/// A call that is refused with EACCES carries a denial of one of its paths: what the path's names up
/// to that place denote has an ACL that, by the access check algorithm of acl(5), denies the caller
/// what was wanted, by the entry that the denial names.
///
/// Proved, also of `access_calls_deny_by_rule`: A call that is refused with EACCES carries a denial of one of its paths, and
/// what is at that place has an ACL that denies what was wanted by that very entry.
pub fn access_is_denied_by_rule()
    ensures { AccessIsDeniedByRule }
{}

/// umask answers the mask from before, and sets the one that was asked for, and nothing else.
///
/// Proved: `umask` answers the old mask and sets the new one alone.
pub fn umask_sets_the_mask()
    ensures { UmaskSetsTheMask }
{}

/// chmod sets the mode that was asked for, for the owner and the user 0 alone, and leaves owner, group and
/// default ACL. What it has decided can be applied.
///
/// Proved, also of `chown_sets_owner_and_group` and `setacl_sets_one_acl`: `chmod`, `chown` and `setacl` set the mode, owner
/// and group, or the one ACL, for the owner and user 0 alone, and leave all else, but that a file may lose S_ISGID; what
/// they decide applies.
pub fn chmod_sets_the_mode()
    ensures { ChmodSetsTheMode }
{}

/// chown sets the owner and the group that were asked for, for the owner and the user 0 alone, and no ACL;
/// a file that the user 0 doesn't give loses S_ISGID. What it has decided can be applied.
///
/// Proved: Nobody but user 0 gives an object to another user, or to a group that the caller isn't in.
pub fn chown_sets_owner_and_group()
    ensures { ChownSetsOwnerAndGroup }
{}

/// setacl sets one ACL, for the owner and the user 0 alone, and nothing else, no S bit either. What it has
/// decided can be applied.
pub fn setacl_sets_one_acl()
    ensures { SetaclSetsOneAcl }
{}

/// access passes only where the access check algorithm of acl(5) grants what is wanted by the ACL of what
/// the path leads to.
///
/// Proved: `access` passes only where the access rule grants.
pub fn access_is_granted_by_rule()
    ensures { AccessIsGrantedByRule }
{}

/// chmod, chown, access, getacl and setacl that are refused with EACCES carry a denial: what is at that
/// place of the path has an ACL that denies what was wanted, by the entry that the denial names.
pub fn access_calls_deny_by_rule()
    ensures { AccessCallsDenyByRule }
{}

/// A read is refused with EBADF alone, for its descriptor: what open() granted isn't asked for again.
///
/// Proved, also of `reads_past_the_end_give_nothing`: After the tests of session and arguments a read is refused with
/// `EBADF` alone, since what `open` granted isn't asked for again, and from the end on it gives no bytes.
pub fn reads_ask_for_no_right()
    ensures { ReadsAskForNoRight }
{}

/// A read at the end of the file or past it gives no bytes, and leaves the offset.
pub fn reads_past_the_end_give_nothing()
    ensures { ReadsPastTheEndGiveNothing }
{}

/// A write of no bytes answers 0, and nothing changes.
pub fn writes_of_nothing_do_nothing()
    ensures { WritesOfNothingDoNothing }
{}

/// What is written to a file that is open for appending goes to its end, whatever offset the descriptor has.
///
/// Proved, also of `writes_of_nothing_do_nothing`: A write for appending goes to the file's end, and one of no bytes changes
/// nothing.
pub fn appends_go_to_the_end()
    ensures { AppendsGoToTheEnd }
{}

/// readdir answers the names of the directory that the path leads to, each once and in the order of their
/// bytes, and no others.
pub fn readdir_lists_the_names()
    ensures { ReaddirListsTheNames }
{}

/// rmdir takes an empty directory away with its name, and leaves every other name and node as it was.
///
/// Proved, also of `link_gives_one_more_name`, `rename_moves_the_name` and `readdir_lists_the_names`: `rmdir` takes an empty
/// directory away, `link` gives a file one name more, `rename` moves a name, and each leaves every other name; `readdir`
/// lists the names of a directory.
pub fn rmdir_takes_an_empty_directory()
    ensures { RmdirTakesAnEmptyDirectory }
{}

/// link gives a file one more name, and leaves every other name and each node as it was.
pub fn link_gives_one_more_name()
    ensures { LinkGivesOneMoreName }
{}

/// rename moves a name, and leaves every other name as it was, and each node but that which had the new
/// name; of two names of one thing nothing is done.
pub fn rename_moves_the_name()
    ensures { RenameMovesTheName }
{}

/// No call but mkdir, open, link, rename, unlink, rmdir and snap-restore changes which names are there.
///
/// Proved: No call but `mkdir`, `open`, `link`, `rename`, `unlink`, `rmdir` and `snap-restore` changes which names there
/// are.
pub fn few_calls_change_names()
    ensures { FewCallsChangeNames }
{}

/// A call that restores a snapshot makes the live tree what the snapshot has, but for its files without
/// names. Snapshots, sessions and what is open in snapshots stay.
///
/// Proved: `snap-restore` makes the live tree the snapshot's without its files without names, so that each file has a name;
/// snapshots, sessions and descriptors stay, and no descriptor of the world after it is of the live tree.
pub fn restores_bring_back()
    ensures brings { RestoresBringBack }
    ensures world { RestoresLeaveAWorld }
    ensures beside { RestoresStayBeside }
{}
