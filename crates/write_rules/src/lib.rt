//! The verdict on a verb that writes files, on a deletion, on a request for a new block, and on one to read a file: the first need that
//! fails, or else the first refusal of the operation's list that applies, or else done (HDFS Architecture, "The File System Namespace"; HDFS
//! Permissions Guide). Other operations are judged here by their needs alone. What hangs on the lease of another client, and on the nodes that
//! can recover a block, is left open, and nothing changes.
#![tactic(auto)]

pub mod appends;
pub mod blocks;
pub mod ends;
pub mod write;
