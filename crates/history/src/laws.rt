//! Laws about histories. Each function does nothing: what it ensures follows from the definitions.

ghost use Rattle.history.specs.GrantLaws as grant;
ghost use Rattle.history.specs.Laws as law;

/// No two clients have a file open to write at a time.
pub fn files_have_one_writer()
    ensures { law.FilesHaveOneWriter }
{}

/// While the lease of the client who has a file open is live, no append takes the file over: it isn't done. Where nothing else stands
/// against it, it is refused with that client's name.
pub fn live_writers_stay()
    ensures stay { law.LiveWritersStay }
    ensures named { law.LiveWritersAreNamed }
{}

/// What is denied or refused leaves users, namespace, renewals, keys, blocks and nodes as they are, and so does a request that only
/// looks.
pub fn nothing_changes()
    ensures not_done { law.WhatIsNotDoneChangesNothing }
    ensures looks { law.LooksChangeNothing }
{}

/// Each token in the ledger was granted at the place of an entry to its caller: to write the new block that he was given, to read a block of
/// the file that he opened, or to a DataNode, with a command of the answer to its heartbeat: to write a block whose recovery it is to lead, or
/// to read and write one that it is to copy. What was denied or refused granted nothing.
#[tactic(auto, using(crate::proofs::Granted::grants_were_asked))]
pub fn grants_were_asked()
    ensures { grant.GrantsWereAsked }
{}
