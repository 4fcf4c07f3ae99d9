//! Laws of permissions. Each function does nothing: what it ensures follows from the definitions.

ghost use Rattle.permission_laws.specs.Judging as judging;
ghost use Rattle.permission_laws.specs.Laws as law;

/// A superuser is never denied what isn't for DataNodes alone, and nobody else is one than the user that the NameNode runs as and the members of the supergroup (HDFS
/// Permissions Guide, "The Super-User").
pub fn superusers_are_never_denied()
    ensures never { law.SuperusersAreNeverDenied }
    ensures known { law.SuperusersByNameOrGroup }
    ensures others { law.OthersAreNoSuperusers }
{}

/// Only the principal of a DataNode does what is for DataNodes: heartbeats, reports of replicas and ends of recoveries (HDFS Architecture,
/// "Data Replication").
pub fn nodes_act_for_themselves()
    ensures { law.OthersAreNoNodes }
{}

/// Only superusers make users known, give them groups, make keys and have leases expire; users and groups change by the first two alone (HDFS
/// Permissions Guide, "The Super-User").
pub fn superusers_administer()
    ensures others { law.OthersDoNotAdminister }
    ensures users { law.UsersStay }
{}

/// What is beneath a directory that the caller can't traverse is out of reach: whatever is asked there is denied, at a directory on the
/// way that is closed to the caller, and nothing changes. And no denial names anything beneath such a directory (HDFS Permissions
/// Guide, "Permission Checks").
pub fn closed_directories_turn_back()
    ensures turned { law.ClosedDirectoriesTurnBack }
    ensures told { law.DenialsAreWithinReach }
{}

/// In a directory with the sticky bit only the owner of what is taken away, the directory's owner and superusers delete or rename what
/// the directory holds (HDFS Permissions Guide, "The Sticky Bit").
pub fn sticky_directories_keep_what_they_hold()
    ensures { law.StickyDirectoriesKeepWhatTheyHold }
{}

/// Only the owner and superusers change a mode, an access list, an owner or a group; only superusers give a path to another owner; and
/// others give it only to a group that they are in (HDFS Permissions Guide, "Overview").
pub fn owners_manage()
    ensures others { law.OthersManageNothing }
    ensures owners { law.OwnersGiveNothingAway }
    ensures groups { law.GroupsAreTheGivers }
{}

/// Who deletes may write the directory that holds the path, and may read, write and traverse each directory that goes; who renames may
/// write the directory that holds the source (HDFS Permissions Guide, "Permission Checks").
pub fn deletions_have_their_rights()
    ensures directory { law.DeletionsWriteTheDirectory }
    ensures beneath { law.DeletionsHaveAllRights }
{}

/// Who makes something, or moves it there, may write where it is made; who replaces or alters a file may write it; who opens one may
/// read it; and who lists or counts what directories hold may read and traverse them (HDFS Permissions Guide, "Permission Checks").
pub fn what_is_done_has_its_rights()
    ensures made { law.MakersWriteTheDirectory }
    ensures opened { law.OpenersMayRead }
    ensures altered { law.AlterersMayWrite }
    ensures listed { law.ListersMayLook }
    ensures counted { law.CountersMayLook }
{}

/// Only the client who has a file open asks for its blocks or completes it (HDFS Architecture, the single-writer model).
pub fn only_writers_write()
    ensures { law.OnlyWritersWrite }
{}

/// What stands where an operation has no matter stays as it is, and nothing appears there but the directories above a path that is made.
/// A tick is no such operation: it is about all files. What isn't done changes nothing at all.
pub fn other_rows_stay()
    ensures undone { law.DenialsAndRefusalsChangeNothing }
    ensures stay { law.OtherRowsStay }
    ensures appear { law.NothingElseAppears }
{}

/// What is deleted is gone, and what is renamed has its new path, with all that is beneath it; nothing stays behind.
pub fn deletions_and_renames_take_all()
    ensures deleted { law.DeletionsTakeAll }
    ensures moved { law.RenamesMoveAll }
    ensures left { law.RenamesLeaveNothing }
{}

/// A change of one part of what stands leaves its other parts: of a file's own parts, of the access list, of owner and group. Nothing comes or
/// goes by it.
pub fn parts_change_alone()
    ensures files { law.FilesChangeAlone }
    ensures lists { law.ListsChangeAlone }
    ensures owners { law.OwnersChangeAlone }
    ensures stand { law.NothingComesOrGoes }
{}

/// The owner is judged by the owner's entry alone, without the mask; else a named user by his own, behind the mask, whatever groups he is
/// in; else a member of groups that have entries by one of these, behind the mask, also where none grants: by the first that grants, else
/// by the first. Who matches none of them is judged by the entry of all others, without the mask, and nobody else is (HDFS Permissions
/// Guide, "ACLs (Access Control Lists)").
pub fn the_entry_that_decides()
    ensures owners { judging.OwnersAreUnmasked }
    ensures named { judging.NamedUsersComeBeforeGroups }
    ensures members { judging.GroupMembersAreNotOthers }
    ensures granting { judging.FirstOfGroupsGrants }
    ensures denying { judging.FirstOfGroupsDenies }
    ensures others { judging.OthersAreUnmasked }
    ensures nobody { judging.OthersMatchNothingElse }
{}
