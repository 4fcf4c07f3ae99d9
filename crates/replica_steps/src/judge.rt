ghost use Rattle.std.specs.Prelude.{◌≡◌, ◌+◌, [], nat_lt, option_copied};
ghost use Rattle.replica_steps.specs.ReplicaStep.{TellsReplicaRefusal, replica_refusal, removal_refusal};
ghost use Rattle.node_calls.specs.declared.call.TokenCall.TheVariants as asked;

use crate::replica::Replica;
use call_parts::block_bytes::BlockBytes;
use hdfs_values::ids::Stamp;
use node_calls::refusal::ReplicaRefusal;

/// The most bytes of a packet.
pub const PACKET_LIMIT: u64 = 65_536;

// Whether two numbers together are more than a limit, however large they are.
fn exceed(limit: u64, number: u64, more: u64) -> bool
    ensures { result ≡ nat_lt limit (number + more) }
{
    more > limit || number > limit - more
}

// No refusal depends on the nodes that come next in the pipeline, and some not on a limit or on what was promised: where a contract names
// none of these, it holds with any.

/// Why a replica isn't begun: `ReplicaExists`, then `StampDiffers` where the stamp isn't above the one that was promised. Takes constant time,
/// and no memory, as all calls here.
pub fn judge_begin(
    replica: Option<&Replica>,
    promised: Stamp,
    stamp: Stamp,
) -> Result<(), ReplicaRefusal>
    ensures { TellsReplicaRefusal result (replica_refusal 0 (asked.Begin []) stamp (record { replica = option_copied replica.entry; promised = promised })) }
{
    if replica.is_some() {
        return Err(ReplicaRefusal::ReplicaExists);
    }
    if stamp <= promised {
        return Err(ReplicaRefusal::StampDiffers(promised));
    }
    Ok(())
}

/// Why a packet isn't taken, in this order: `NoReplica`; `StampDiffers` from the stamp that was promised; `NotWritable`; `OffsetGap` with the length of
/// the replica; `OutOfRange` where the packet, or the replica behind it, is longer than its limit; `limit` is the replica's, in bytes.
pub fn judge_packet(
    limit: u64,
    replica: Option<&Replica>,
    promised: Stamp,
    stamp: Stamp,
    offset: u64,
    bytes: &BlockBytes,
) -> Result<(), ReplicaRefusal>
    ensures { TellsReplicaRefusal result (replica_refusal limit (asked.Packet offset bytes.now []) stamp (record { replica = option_copied replica.entry; promised = promised })) }
{
    let Some(replica) = replica else {
        return Err(ReplicaRefusal::NoReplica);
    };
    if stamp != promised {
        return Err(ReplicaRefusal::StampDiffers(promised));
    }
    if !replica.is_writing() || replica.stamp < promised {
        return Err(ReplicaRefusal::NotWritable);
    }
    let (length, count) = (replica.bytes.len(), bytes.len());
    if offset != length {
        return Err(ReplicaRefusal::OffsetGap(length));
    }
    if count > PACKET_LIMIT || exceed(limit, length, count) {
        return Err(ReplicaRefusal::OutOfRange);
    }
    Ok(())
}

/// Why a replica isn't finalized: `NoReplica`, `StampDiffers`, `NotWritable`, `OffsetGap` with its length in bytes, in this order.
pub fn judge_finalize(
    replica: Option<&Replica>,
    promised: Stamp,
    stamp: Stamp,
    count: u64,
) -> Result<(), ReplicaRefusal>
    ensures { TellsReplicaRefusal result (replica_refusal 0 (asked.Finalize count []) stamp (record { replica = option_copied replica.entry; promised = promised })) }
{
    let Some(replica) = replica else {
        return Err(ReplicaRefusal::NoReplica);
    };
    if stamp != promised {
        return Err(ReplicaRefusal::StampDiffers(promised));
    }
    if !replica.is_writing() || replica.stamp < promised {
        return Err(ReplicaRefusal::NotWritable);
    }
    let length = replica.bytes.len();
    if count != length {
        return Err(ReplicaRefusal::OffsetGap(length));
    }
    Ok(())
}

/// Why so many bytes aren't read behind so many: `NoReplica` also where it is still being written, `StampDiffers` from its own stamp,
/// `OutOfRange`, in this order.
pub fn judge_read(
    replica: Option<&Replica>,
    stamp: Stamp,
    offset: u64,
    count: u64,
) -> Result<(), ReplicaRefusal>
    ensures { TellsReplicaRefusal result (replica_refusal 0 (asked.Read offset count) stamp (record { replica = option_copied replica.entry; promised = 0 })) }
{
    let Some(replica) = replica else {
        return Err(ReplicaRefusal::NoReplica);
    };
    if replica.is_writing() {
        return Err(ReplicaRefusal::NoReplica);
    }
    if stamp != replica.stamp {
        return Err(ReplicaRefusal::StampDiffers(replica.stamp));
    }
    if exceed(replica.bytes.len(), offset, count) {
        return Err(ReplicaRefusal::OutOfRange);
    }
    Ok(())
}

/// Why a replica isn't told for a recovery: `NoReplica`, then `StampDiffers` where the stamp isn't above the one that was promised.
pub fn judge_init(
    replica: Option<&Replica>,
    promised: Stamp,
    stamp: Stamp,
) -> Result<(), ReplicaRefusal>
    ensures { TellsReplicaRefusal result (replica_refusal 0 asked.InitRecovery stamp (record { replica = option_copied replica.entry; promised = promised })) }
{
    if replica.is_none() {
        return Err(ReplicaRefusal::NoReplica);
    }
    if promised >= stamp {
        return Err(ReplicaRefusal::StampDiffers(promised));
    }
    Ok(())
}

/// Why a recovery doesn't cut a replica to so many bytes: `NoReplica`; `StampDiffers` from the stamp that was promised; `NotWritable` where it
/// was cut at that stamp; `OutOfRange` where it is shorter, in this order.
pub fn judge_update(
    replica: Option<&Replica>,
    promised: Stamp,
    stamp: Stamp,
    count: u64,
) -> Result<(), ReplicaRefusal>
    ensures { TellsReplicaRefusal result (replica_refusal 0 (asked.UpdateReplica count) stamp (record { replica = option_copied replica.entry; promised = promised })) }
{
    let Some(replica) = replica else {
        return Err(ReplicaRefusal::NoReplica);
    };
    if promised != stamp {
        return Err(ReplicaRefusal::StampDiffers(promised));
    }
    if replica.stamp == stamp {
        return Err(ReplicaRefusal::NotWritable);
    }
    if count > replica.bytes.len() {
        return Err(ReplicaRefusal::OutOfRange);
    }
    Ok(())
}

/// Why a replica isn't copied: `NoReplica` also where it is still being written, then `StampDiffers` from its own stamp.
pub fn judge_copy(replica: Option<&Replica>, stamp: Stamp) -> Result<(), ReplicaRefusal>
    ensures { TellsReplicaRefusal result (replica_refusal 0 (asked.SendCopy 0) stamp (record { replica = option_copied replica.entry; promised = 0 })) }
{
    let Some(replica) = replica else {
        return Err(ReplicaRefusal::NoReplica);
    };
    if replica.is_writing() {
        return Err(ReplicaRefusal::NoReplica);
    }
    if stamp != replica.stamp {
        return Err(ReplicaRefusal::StampDiffers(replica.stamp));
    }
    Ok(())
}

/// Why a copy isn't taken: `ReplicaExists`; `StampDiffers` where its stamp is below the one that was promised; `OutOfRange` where it is longer than
/// the limit, in bytes; in this order.
pub fn judge_take(
    limit: u64,
    replica: Option<&Replica>,
    promised: Stamp,
    stamp: Stamp,
    bytes: &BlockBytes,
) -> Result<(), ReplicaRefusal>
    ensures { TellsReplicaRefusal result (replica_refusal limit (asked.TakeCopy bytes.now) stamp (record { replica = option_copied replica.entry; promised = promised })) }
{
    if replica.is_some() {
        return Err(ReplicaRefusal::ReplicaExists);
    }
    if stamp < promised {
        return Err(ReplicaRefusal::StampDiffers(promised));
    }
    if bytes.len() > limit {
        return Err(ReplicaRefusal::OutOfRange);
    }
    Ok(())
}

/// Why a replica isn't removed: `NoReplica`, then `StampDiffers` where it has a newer stamp.
pub fn judge_removal(replica: Option<&Replica>, stamp: Stamp) -> Result<(), ReplicaRefusal>
    ensures { TellsReplicaRefusal result (removal_refusal stamp (option_copied replica.entry)) }
{
    let Some(replica) = replica else {
        return Err(ReplicaRefusal::NoReplica);
    };
    if stamp < replica.stamp {
        return Err(ReplicaRefusal::StampDiffers(replica.stamp));
    }
    Ok(())
}
