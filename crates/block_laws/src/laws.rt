//! What holds of blocks in every history. Each function does nothing: what it ensures follows from the definitions.

ghost use Rattle.block_laws.specs.Laws as law;

/// No id of a block and no generation stamp is given twice, also once a block is deleted: both ascend from one new block to the next.
/// No block is known whose id no writer was given, and no two have one newest stamp, also at different times; a stamp that a block has newly,
/// from a new block or from a recovery, no block had before, nor does a recovery begin under a stamp that was given (HDFS Architecture, "Data Replication").
pub fn numbers_are_given_once()
    ensures ids { law.IdsAscend }
    ensures stamps { law.StampsAscend }
    ensures known { law.KnownBlocksWereGiven }
    ensures own { law.StampsAreOwn }
    ensures ever { law.StampsAreOwnAtAllTimes }
    ensures fresh { law.StampsAreNew }
    ensures recoveries { law.RecoveriesHaveNewStamps }
{}

/// From one step to the next, while a block is known: its newest stamp doesn't fall, and a length that is committed stays (HDFS-265).
pub fn what_is_committed_stays()
    ensures stamps { law.StampsNeverFall }
    ensures lengths { law.LengthsStay }
{}

/// A block that is known stands in one file, once, and no other block stands in any; its id is below the one that is given next. Each file
/// has of its blocks the lengths that are committed. The rows are a namespace (HDFS Architecture, "The File System Namespace").
pub fn blocks_stand_once()
    ensures once { law.BlocksStandOnce }
    ensures below { law.BlocksAreBelow }
    ensures lengths { law.FilesTellLengths }
    ensures namespace { law.RowsAreNamespace }
{}

/// The recoveries of blocks that run are those of files: one file has the state for each, with the block's stamp and the moment at which it
/// began, and recovers its last block, whose length isn't committed (HDFS-265, "Lease recovery" and "Block recovery").
pub fn recoveries_are_those_of_files()
    ensures same { law.RecoveriesAreThoseOfFiles }
    ensures alone { law.OneFileRecovers }
    ensures last { law.FilesRecoverLast }
    ensures due { law.OverdueFilesAreDue }
{}
