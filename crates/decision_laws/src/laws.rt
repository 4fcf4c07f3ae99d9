//! Laws of the decision. Each function does nothing: what it ensures follows from the definitions. Who isn't denied may still be refused.

ghost use Rattle.decision_laws.specs.Laws as law;

/// Of callers who may traverse the directories above a path: nobody is denied who asks what stands there or for its access list, goes on with a file or
/// completes it; who opens a file exactly where he may not read it, who appends or gives another replication where he may not write it, who
/// lists a directory where he may not read and traverse it, and who counts where he may not do so with it and each directory beneath (HDFS Permissions Guide,
/// "Permission Checks").
pub fn looks_and_writes_need_these_rights()
    ensures way { law.TheWayIsEnough }
    ensures open { law.OpenNeedsRead }
    ensures append { law.AppendNeedsWrite }
    ensures replication { law.ReplicationNeedsWrite }
    ensures list { law.ListNeedsReadAndTraverse }
    ensures summary { law.SummaryNeedsAllBeneath }
{}

/// Of such callers is denied exactly: who makes a directory where nothing stands, or a file anywhere, and may not write the last component above that is there, and who
/// is to replace a file that he may not write; who deletes, with `recursive` or without, and is held back by the sticky bit, may not write the directory that
/// holds the path, or lacks a right on a directory at or beneath it; and who renames and is held back so, or may not write the directory of
/// the source or the last component above the target (HDFS Permissions Guide, "Permission Checks" and "The Sticky Bit").
pub fn changes_need_these_rights()
    ensures mkdirs { law.MkdirsNeedsWriteAbove }
    ensures create { law.CreateNeedsWriteAbove }
    ensures delete { law.DeleteNeedsAllBeneath }
    ensures rename { law.RenameNeedsBothDirectories }
{}

/// Of such callers is denied exactly: who isn't the owner and changes a mode or an access list, or owner or group; who names another owner and is no superuser; and who
/// names a group that he isn't in (HDFS Permissions Guide, "Permission Checks").
pub fn ownership_is_needed()
    ensures lists { law.ListsAndModesNeedTheOwner }
    ensures chown { law.ChownNeedsTheOwnerAndTheGroup }
{}

/// Nobody is denied who renews; who administers exactly where he is no superuser; and who acts as a DataNode exactly where he is none, whatever his rank (HDFS
/// Permissions Guide, "The Super-User").
pub fn rank_is_needed()
    ensures renew { law.RenewNeedsNothing }
    ensures administration { law.AdministrationNeedsASuperuser }
    ensures nodes { law.NodesNeedTheirName }
{}
