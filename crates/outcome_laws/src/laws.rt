//! Laws of outcomes. Each function does nothing: what it ensures follows from the definitions.

ghost use Rattle.outcome_laws.specs.Laws as law;

/// Nothing is replaced that isn't to be: a file is made where nothing stands, or where a file does that it is to replace; a rename ends
/// where nothing stood; and a directory that is to be made where one stands leaves that as it is (HDFS Architecture, "The File System
/// Namespace").
pub fn nothing_is_replaced_unasked()
    ensures files { law.CreationsReplaceNothing }
    ensures directories { law.CreationsReplaceNoDirectory }
    ensures renames { law.RenamesReplaceNothing }
    ensures made { law.DirectoriesStay }
{}

/// A deletion that isn't recursive takes nothing from beneath the path, and the root is neither deleted nor renamed (HDFS Architecture,
/// "The File System Namespace").
pub fn deletions_are_as_asked()
    ensures beneath { law.DeletionsTakeWhatHoldsNothing }
    ensures root { law.RootStays }
{}

/// What is to be made stands there. What appears, but by a rename, is its maker's, and has the group of the last component above that was
/// there. Where that has no default list, what is made shows the mode that was asked for, a file without the sticky bit, and parents that
/// are made on the way grant their maker write and traverse (HDFS Permissions Guide, "Overview").
pub fn new_rows_belong_to_their_makers()
    ensures made { law.DirectoriesAreMade }
    ensures written { law.FilesAreMade }
    ensures owner { law.WhatAppearsIsItsMakers }
    ensures group { law.WhatAppearsHasTheGroupAbove }
    ensures directories { law.DirectoriesShowTheModeAskedFor }
    ensures files { law.FilesShowTheModeAskedFor }
    ensures parents { law.MissingParentsServeTheirMakers }
{}

/// An owner, a group, a mode and a replication are those that were given, and a list that is changed is then the change of what it was. Who is given groups is known and has these, everybody else keeps
/// theirs, the superuser's and the supergroup's names stay, and permissions are checked or not as was last asked for (HDFS Permissions Guide, "Overview", "Group Mapping" and "The Super-User";
/// HDFS Architecture, "Data Replication").
pub fn what_is_given_stands()
    ensures owners { law.OwnersAreAsGiven }
    ensures modes { law.ModesAreAsGiven }
    ensures lists { law.ListsAreAsChanged }
    ensures replications { law.ReplicationsAreAsGiven }
    ensures groups { law.GroupsAreAsGiven }
    ensures others { law.GroupsOfOthersStay }
    ensures names { law.SuperNamesStay }
    ensures checking { law.CheckingIsAsAskedFor }
    ensures unasked { law.CheckingStays }
{}

/// Nobody comes to have a file open but by asking to write it himself. And who has one open keeps it while his lease is live, whatever others
/// ask for, until what stands there is taken away (HDFS Architecture, the single-writer model).
pub fn live_writers_keep_their_files()
    ensures asked { law.WritersAskForThemselves }
    ensures kept { law.LiveWritersKeepTheirFiles }
{}

/// A deletion tells how many files and directories there are fewer, which is how many a summary of the path told over the same rows, and as
/// many committed bytes are there fewer as that told. Who opens a file to read is told the length that its status tells over the same rows,
/// and who completes it the length that it then has. And a listing tells
/// the names of what stands right beneath a directory, and no others (HDFS Architecture, "The File System Namespace" and "Data
/// Replication").
pub fn numbers_and_names_are_true()
    ensures deleted { law.DeletionsTellHowManyGo }
    ensures counted { law.SummariesCountWhatGoes }
    ensures bytes { law.SummariesTellTheBytesThatGo }
    ensures readers { law.ReadersAreToldTheLength }
    ensures writers { law.WritersAreToldTheLength }
    ensures listed { law.DirectoriesListWhatTheyHold }
{}

/// Each kind of refusal has a code of its own, with which its text begins (this project's own numbers).
pub fn refusals_have_codes_of_their_own()
    ensures kinds { law.CodesTellKinds }
    ensures texts { law.CodesStandInFront }
{}

/// A DataNode is told once what it is to remove and which recoveries it is to lead, and what others are to be told stays. The copies that it
/// is told to make are of blocks that lack replicas and that it reports, each to a live DataNode that doesn't; and the moment is noted (HDFS
/// Architecture, "Data Disk Failure, Heartbeats and Re-Replication").
pub fn instructions_are_told_once()
    ensures once { law.InstructionsAreToldOnce }
    ensures others { law.InstructionsOfOthersStay }
    ensures copies { law.CopiesAreNeeded }
    ensures noted { law.CopiesAreNoted }
{}
