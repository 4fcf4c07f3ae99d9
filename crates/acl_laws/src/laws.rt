//! Laws of inherited and of changed access control lists. Each function does nothing: what it ensures follows from the definitions.

ghost use Rattle.acl_laws.specs.Laws as law;

/// What is made in a directory that has a default list grants owner, group class and others what the default list and the mode with which it is made both do, and nothing else; it has
/// the default list's named entries, and the mode's sticky bit where it is a directory (HDFS Permissions Guide, "ACLs (Access Control Lists)").
pub fn what_is_made_has_what_both_grant()
    ensures mode { law.WhatIsMadeKeepsToItsMode }
    ensures list { law.WhatIsMadeKeepsToTheDefaultList }
    ensures both { law.WhatBothGrantIsGranted }
    ensures sticky { law.StickyBitsAreTheModes }
{}

/// A change of entries leaves the sticky bit; one by a spec leaves a list of which the spec says nothing, and, where it modifies or removes, the
/// named users and groups whom the spec doesn't name, in either list; the default list is emptied alone; where named entries are cleared, the access list keeps
/// those of the owner, the owning group and others; and a new mode leaves all but owner, mask or group, and others (HDFS Permissions Guide, "ACLs Shell Commands").
pub fn changes_leave_what_they_do_not_name()
    ensures sticky { law.StickyBitsStay }
    ensures modes { law.ModesLeaveTheRest }
    ensures lists { law.ListsThatAreNotNamedStay }
    ensures emptied { law.EmptyingDefaultListsLeavesAccess }
    ensures cleared { law.ClearedListsKeepTheirBases }
    ensures others { law.WhoIsNotNamedKeepsHisEntry }
{}

/// A named user or group whom a spec names that sets or modifies has an entry with the rights that it names, in that list; one whom a spec names that removes has none. In the access list
/// owner, owning group, others and mask have what is named for them; a mask that isn't named, where something else is, is the union of the group class. A
/// new default list has of the access list what the spec doesn't name (HDFS Permissions Guide, "ACLs Shell Commands").
pub fn changes_give_and_take_what_they_name()
    ensures given { law.NamedEntriesAreAsGiven }
    ensures bases { law.BasesAreAsGiven }
    ensures masks { law.MasksAreAsGiven }
    ensures missing { law.MissingBasesComeFromTheAccessList }
    ensures taken { law.RemovedNamesHaveNoEntry }
    ensures unions { law.UnnamedMasksAreTheUnion }
{}
