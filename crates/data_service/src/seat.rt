ghost use Rattle.std.specs.Prelude.{◌≡◌, ◌⊎◌, [], None, Some, slice_get, IfNone, IfOk, IfSome, IsSome, OnErr, OnOk};
ghost use Rattle.call_parts.specs.declared.access_log.AccessRecord.{AccessRecord};
ghost use Rattle.datanode.specs.Kept.{AreCovered};
ghost use Rattle.datanode.specs.NodeStep.{node_after, node_answer};
ghost use Rattle.data_service.specs.Parts.{parts_in};
ghost use Rattle.data_service.specs.Seats.{Keeps, KeepsNew};
ghost use Rattle.data_service.specs.declared.seat.Parts.{Parts};

use call_parts::access_log::AccessRecord;
use call_parts::presented::PresentedToken;
use datanode::answered::Answered;
use datanode::datanode::DataNode;
use hdfs_values::moment::Moment;
use hdfs_values::who::Who;
use node_calls::call::NodeCall;
use node_calls::principal::principal_of;
use node_ids::node_id::NodeId;
use replicas::asking;
use std::alloc::{AllocError, Global};
use std::marker::Model;

/// A record that a DataNode made of a call, as its caller keeps it.
pub struct LogReceipt {
    /// Which record of the node's log it is, counted from 0.
    pub number: usize,
    pub entry: AccessRecord,
}

impl Drop for LogReceipt {
    fn drop(self) {
        let LogReceipt { number: _, entry } = self;
        drop(entry);
    }
}

/// A caller's session with a DataNode: what was noted down of his calls, in order.
pub struct Seat {
    alloc: Global,
    pub(crate) receipts: Vec<LogReceipt>,
}

impl Drop for Seat {
    fn drop(self) {
        let Seat { alloc: _, receipts } = self;
        drop(receipts);
    }
}

impl Model for Seat {
    ghost use Rattle.data_service.specs.Seats.{Seat};

    ghost Value = { Seat };

    ghost view = { λ seat. seat.receipts.items };
}

impl Seat {
    // A session of which nothing is noted down.
    pub(crate) fn new(alloc: Global) -> Seat
        ensures { result ≡ [] }
    {
        Seat {
            alloc,
            receipts: Vec::new(alloc),
        }
    }

    /// What was noted down of its calls, the oldest first. Takes no memory.
    pub fn receipts(&self) -> &[LogReceipt]
        ensures { result.now ≡ self.now }
    {
        self.receipts.as_slice()
    }

    // What a check is handed.
    pub(crate) fn into_receipts(self) -> Vec<LogReceipt>
        ensures { result.items ≡ self }
    {
        let Seat { alloc: _, receipts } = self;
        receipts
    }
}

// What of a record takes memory.
struct Parts {
    caller: Who,
    token: PresentedToken,
}

impl Drop for Parts {
    fn drop(self) {
        let Parts { caller, token } = self;
        drop(caller);
        drop(token);
    }
}

// What the node of this id would note down of a call, as far as it takes memory.
fn parts_in(alloc: Global, node: NodeId, call: &NodeCall) -> Result<Option<Parts>, AllocError>
    ensures { IfOk result (λ parts. parts ≡ parts_in node call.now) }
{
    let NodeCall::Presenting(presented, asked) = call else {
        return Ok(None);
    };
    let caller = if asking::sends_copy(asked) {
        principal_of(alloc, node)?
    } else {
        presented.caller.clone()?
    };
    Ok(Some(Parts {
        caller,
        token: presented.token.clone()?,
    }))
}

impl Parts {
    // A receipt of a record, of which these are what takes memory.
    fn into_receipt(self, number: usize, entry: &AccessRecord) -> LogReceipt
        requires caller { self.caller ≡ entry.now.caller }
        requires token { self.token ≡ entry.now.token }
        ensures number { result.number ≡ number }
        ensures entry { result.entry ≡ entry.now }
    {
        let Parts { caller, token } = self;
        LogReceipt {
            number,
            entry: AccessRecord {
                node: entry.node,
                moment: entry.moment,
                caller,
                block: entry.block,
                mode: entry.mode,
                offset: entry.offset,
                length: entry.length,
                token,
            },
        }
    }
}

// The receipt of the record of this number, if there is one, and this is what of it takes memory.
fn new_receipt(records: &[AccessRecord], number: usize, parts: Option<Parts>) -> Option<LogReceipt>
    requires { (entry : AccessRecord) (own : Parts) → slice_get records.now number ≡ Some entry → parts ≡ Some own → own ≡ record { caller = entry.caller; token = entry.token } }
    ensures some { IfSome result (λ receipt. (receipt.number ≡ number) × (slice_get records.now number ≡ Some receipt.entry) × IsSome parts) }
    ensures none { IfNone result ((slice_get records.now number ≡ None) ⊎ (parts ≡ None)) }
{
    let Some(parts) = parts else {
        return None;
    };
    let Some(entry) = records.get(number) else {
        drop(parts);
        return None;
    };
    Some(parts.into_receipt(number, entry))
}

/// Has the node do any call, as `DataNode::call` does, and keeps what it notes down of it, with its number in the log, as the seat's next
/// receipt. Costs what the call costs.
///
/// # Errors
/// Out of memory. Node and seat are as they were then.
pub fn call_locked(
    node: &mut DataNode,
    seat: &mut Seat,
    moment: Moment,
    call: &NodeCall,
) -> Result<Answered, AllocError>
    ensures node { OnOk result (node.new ≡ node_after node.old moment call.now) }
    ensures answer { IfOk result (λ answered. answered ≡ node_answer node.old moment call.now) }
    ensures seat { OnOk result (KeepsNew node.old.log node.new.log seat.old seat.new) }
    ensures keeps { IfOk result (λ answered. Keeps moment call.now answered.result seat.old seat.new) }
    ensures covered { OnOk result (AreCovered node.old.log × AreCovered node.new.log) }
    ensures err_node { OnErr result (node.new ≡ node.old) }
    ensures err_seat { OnErr result (seat.new ≡ seat.old) }
{
    seat.receipts.reserve(1)?;
    let parts = parts_in(seat.alloc, node.id(), call)?;
    let number = node.records().len();
    let answered = node.call(moment, call)?;
    if let Some(receipt) = new_receipt(node.records(), number, parts) {
        seat.receipts.push_reserved(receipt);
    }
    Ok(answered)
}
