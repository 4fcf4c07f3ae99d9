//! Laws of placement. Each function does nothing: what it ensures follows from the definitions.

ghost use Rattle.placement_laws.specs.Laws as law;

/// The targets of a block are among the DataNodes, no more of them than are asked for, where each is named once, and all where there are no more; nobody is left out who has
/// fewer blocks than one who is chosen (HDFS Architecture, "Data Replication"; the rule is this project's own).
pub fn targets_are_the_least_loaded()
    ensures among { law.TargetsAreAmongTheNodes }
    ensures least { law.TheLeastLoadedAreChosen }
    ensures few { law.NoMoreAreChosenThanAsked }
    ensures all { law.AllAreChosenOfFew }
{}

/// The recovery of a block is led by one of its DataNodes that is live, where one is, and no live one was heard of later (HDFS-265).
pub fn leaders_were_heard_last()
    ensures live { law.LeadersAreLive }
    ensures last { law.NobodyLiveWasHeardLater }
    ensures some { law.SomebodyLeads }
{}
