ghost use Rattle.std.specs.Prelude.{◌≡◌, ℕ, ◌<◌, [], None, IfOk, OnOk, OnErr, option_copied, slice_index};
ghost use Rattle.node_ids.specs.NodeId.{node_principal};
ghost use Rattle.block_tokens.specs.TokenTest.{TellsTokenRefusal, token_test};
ghost use Rattle.block_records.specs.Numbers.{entry_at};
ghost use Rattle.node_calls.specs.declared.call.NodeCall.TheVariants as asked;
ghost use Rattle.node_calls.specs.declared.call.TokenCall.TheVariants as made;
ghost use Rattle.replica_steps.specs.ReplicaStep.{held_at, replica_refusal};
ghost use Rattle.replicas.specs.Asking.{record_of};
ghost use Rattle.datanode.specs.Kept.{AreBelow, AreCovered};
ghost use Rattle.datanode.specs.NodeStep as spec;
ghost use Rattle.datanode.specs.Served.{held_by, log_by, told_of, told_unless};

use crate::answered::Answered;
use block_tokens::key::KeyList;
use block_tokens::refusal::TokenRefusal;
use call_parts::access_log::{AccessLog, AccessRecord};
use call_parts::block_bytes::BlockBytes;
use call_parts::node_list::NodeList;
use call_parts::presented::{Presented, PresentedToken};
use hdfs_values::at_word::AtWord;
use hdfs_values::ids::{BlockId, Stamp};
use hdfs_values::moment::Moment;
use hdfs_values::who::Who;
use node_calls::call::{NodeCall, TokenCall};
use node_calls::message::Messages;
use node_calls::principal::principal_of;
use node_calls::refusal::NodeRefusal;
use node_calls::reply::NodeReply;
use node_ids::node_id::NodeId;
use replica_steps::held::Held;
use replica_steps::replica::Replica;
use replicas::replicas::Replicas;
use replicas::{asking, sending};
use std::alloc::{AllocError, Global};
use std::marker::Model;
use std::num::NonZeroUsize;
use token_cache::cache::TokenCache;

/// A DataNode: its replicas, the keys that the NameNode sent it, and whom it let at them (HDFS Architecture, "NameNode and DataNodes";
/// HADOOP-4359).
pub struct DataNode {
    id: NodeId,
    // in whose name it sends copies
    principal: Who,
    // the most bytes of a replica
    limit: u64,
    // the greatest moment of its calls
    clock: Moment,
    keys: TokenCache,
    replicas: Replicas,
    log: AccessLog,
    alloc: Global,
}

impl Drop for DataNode {
    fn drop(self) {
        let DataNode {
            id: _,
            principal,
            limit: _,
            clock: _,
            keys,
            replicas,
            log,
            alloc,
        } = self;
        drop(principal);
        drop(keys);
        drop(replicas);
        drop(log);
        drop(alloc);
    }
}

impl Model for DataNode {
    ghost use Rattle.datanode.specs.Kept.{IsKept};
    ghost use Rattle.datanode.specs.NodeStep.{DataNode};

    ghost Value = { DataNode };

    ghost view = { λ node. record {
      id = node.id;
      limit = node.limit;
      clock = node.clock;
      keys = node.keys;
      blocks = node.replicas;
      log = node.log;
    } };

    ghost invariant = { IsKept };
}

// What is a byte is below 256. Does nothing.
fn read_bytes(bytes: &[u8])
    ensures { (index : ℕ) → slice_index bytes.now index < 256 }
{
    let _bytes = bytes;
}

// A refusal sends nothing.
fn refused(alloc: Global, refusal: NodeRefusal) -> Answered
    ensures { result ≡ spec.call_refused refusal }
{
    Answered {
        result: Err(refusal),
        messages: Messages::new(alloc),
    }
}

// What is noted down of a call, where this is held of its block.
fn record(
    node: NodeId,
    clock: Moment,
    presented: &Presented,
    call: &TokenCall,
    held: &Held,
) -> Result<AccessRecord, AllocError>
    ensures { IfOk result (λ entry. entry ≡ record_of node clock presented.now call.now held.now) }
{
    Ok(AccessRecord {
        node,
        moment: clock,
        caller: presented.caller.clone()?,
        block: presented.block,
        mode: asking::mode_of(call),
        offset: asking::recorded_offset(call),
        length: asking::recorded_length(call, held),
        token: presented.token.clone()?,
    })
}

// What is answered to a call that isn't refused, where this is held of its block.
fn answer(
    alloc: Global,
    node: NodeId,
    presented: &Presented,
    call: &TokenCall,
    held: &Held,
) -> Result<Answered, AllocError>
    ensures { IfOk result (λ answered. answered ≡ told_of node presented.now call.now held.now) }
{
    let messages = sending::sends(alloc, node, presented, call, held)?;
    let told = sending::reply_to(alloc, call, held)?;
    Ok(Answered {
        result: Ok(told),
        messages,
    })
}

// A call whose token is taken, where this is held of its block.
fn serve_held(
    alloc: Global,
    node: NodeId,
    limit: u64,
    clock: Moment,
    presented: &Presented,
    call: &TokenCall,
    held: &mut Held,
    log: &mut AccessLog,
) -> Result<Answered, AllocError>
    ensures held { OnOk result (held.new ≡ held_by call.now presented.now.stamp held.old (replica_refusal limit call.now presented.now.stamp held.old)) }
    ensures noted { OnOk result (log.new ≡ log_by log.old (record_of node clock presented.now call.now held.old) (replica_refusal limit call.now presented.now.stamp held.old)) }
    ensures answer { IfOk result (λ answered. answered ≡ told_unless node presented.now call.now held.old (replica_refusal limit call.now presented.now.stamp held.old)) }
    ensures held_err { OnErr result (held.new ≡ held.old) }
    ensures log_err { OnErr result (log.new ≡ log.old) }
{
    if let Err(refusal) = held.judge(limit, call, presented.stamp) {
        return Ok(refused(alloc, NodeRefusal::Replica(refusal)));
    }
    let answered = answer(alloc, node, presented, call, held)?;
    let entry = record(node, clock, presented, call, held)?;
    log.push(entry)?;
    match held.apply(alloc, call, presented.stamp) {
        Ok(()) => Ok(answered),
        Err(fault) => {
            log.take_back();
            Err(fault)
        }
    }
}

impl DataNode {
    /// No replica, no key, nothing noted down, and the clock at 0. A replica has at most so many bytes. The last 64 tokens that were verified
    /// aren't hashed again.
    ///
    /// # Errors
    /// Out of memory.
    pub fn new(alloc: Global, id: NodeId, limit: u64) -> Result<DataNode, AllocError>
        ensures { IfOk result (λ node. node ≡ record { id = id; limit = limit; clock = 0; keys = []; blocks = []; log = [] }) }
    {
        DataNode::with_cache(alloc, id, limit, NonZeroUsize::new(64).unwrap())
    }

    /// As `new`, where so many of the tokens that were verified last aren't hashed again; how many changes no answer.
    ///
    /// # Errors
    /// Out of memory.
    pub fn with_cache(
        alloc: Global,
        id: NodeId,
        limit: u64,
        capacity: NonZeroUsize,
    ) -> Result<DataNode, AllocError>
        ensures { IfOk result (λ node. node ≡ record { id = id; limit = limit; clock = 0; keys = []; blocks = []; log = [] }) }
    {
        Ok(DataNode {
            id,
            principal: principal_of(alloc, id)?,
            limit,
            clock: Moment::START,
            keys: TokenCache::new(alloc, capacity)?,
            replicas: Replicas::new(alloc),
            log: AccessLog::new(alloc),
            alloc,
        })
    }

    /// The node's id.
    pub fn id(&self) -> NodeId
        ensures { result ≡ self.now.id }
    {
        self.id
    }

    /// The replica of a block. Costs a look-up, and takes no memory.
    pub fn replica(&self, block: BlockId) -> Option<&Replica>
        ensures { option_copied result ≡ (held_at block self.now.blocks).replica }
    {
        self.replicas.replica(block)
    }

    /// The greatest stamp of a block that was ever held or promised; 0 before any. No replica of the block stands above it. Costs a look-up,
    /// and takes no memory.
    pub fn stamp_floor(&self, block: BlockId) -> Stamp
        ensures floor { result ≡ (held_at block self.now.blocks).promised }
        ensures below { AreBelow self.now.blocks }
    {
        self.replicas.stamp_floor(block)
    }

    /// A copy of what was noted down so far. Each record has the text of a token of its caller, for its block and its access, whose expiry is
    /// above the record's moment (HADOOP-4359). Costs the records.
    ///
    /// # Errors
    /// Out of memory.
    pub fn log(&self) -> Result<AccessLog, AllocError>
        ensures log { IfOk result (λ log. log ≡ self.now.log) }
        ensures covered { AreCovered self.now.log }
    {
        self.log.clone()
    }

    /// What was noted down so far, in its order, as `log` says of it. Takes no memory.
    pub fn records(&self) -> &[AccessRecord]
        ensures log { result.now ≡ self.now.log }
        ensures covered { AreCovered self.now.log }
    {
        self.log.as_slice()
    }

    // Moves the clock on, and drops the keys that have expired by then.
    fn move_on(&mut self, clock: Moment)
        ensures { self.new ≡ spec.moved_on clock self.old }
    {
        self.clock = clock;
        self.keys.drop_expired(clock);
    }

    // A refusal: the clock moves on all the same.
    fn refuse(&mut self, moment: Moment, refusal: NodeRefusal) -> Answered
        ensures after { self.new ≡ spec.moved_on moment self.old }
        ensures answer { result ≡ spec.call_refused refusal }
    {
        self.move_on(moment);
        refused(self.alloc, refusal)
    }

    // What the token of a call is refused for. One that is verified is kept.
    fn judge(
        &mut self,
        clock: Moment,
        presented: &Presented,
        call: &TokenCall,
    ) -> Result<Result<(), TokenRefusal>, AllocError>
        ensures answer { IfOk result (λ told. TellsTokenRefusal told (token_test self.old.keys (spec.access_of clock presented.now call.now) presented.now.token)) }
        ensures same { self.new ≡ self.old }
    {
        let mode = asking::mode_of(call);
        let token = presented.token.as_bytes();
        self.keys
            .check(clock, &presented.caller, presented.block, mode, token)
    }

    // Does what a call that isn't refused does, and notes it down.
    fn note(
        &mut self,
        clock: Moment,
        presented: &Presented,
        call: &TokenCall,
        entry: AccessRecord,
    ) -> Result<(), AllocError>
        requires allowed { spec.call_refusal self.old clock presented.now call.now ≡ None }
        requires noted { entry ≡ record_of self.old.id clock presented.now call.now (held_at presented.now.block self.old.blocks) }
        ensures ok { OnOk result (self.new ≡ spec.call_served self.old clock presented.now call.now) }
        ensures err { OnErr result (self.new ≡ self.old) }
    {
        read_bytes(presented.token.as_bytes());
        self.log.push(entry)?;
        match self.replicas.apply(call, presented.stamp, presented.block) {
            Ok(()) => Ok(()),
            Err(fault) => {
                self.log.take_back();
                Err(fault)
            }
        }
    }

    // A call whose token is taken, where there never was a replica of its block.
    fn serve_unheld(
        &mut self,
        clock: Moment,
        presented: &Presented,
        call: &TokenCall,
    ) -> Result<Answered, AllocError>
        requires token { token_test self.old.keys (spec.access_of clock presented.now call.now) presented.now.token ≡ None }
        requires unheld { entry_at presented.now.block self.old.blocks ≡ None }
        ensures ok { OnOk result (self.new ≡ spec.presented_by self.old clock presented.now call.now (spec.call_refusal self.old clock presented.now call.now)) }
        ensures answer { IfOk result (λ answered. answered ≡ spec.told_by self.old presented.now call.now (spec.call_refusal self.old clock presented.now call.now)) }
        ensures err { OnErr result (self.new ≡ self.old) }
    {
        let held = Held::nothing();
        if let Err(refusal) = held.judge(self.limit, call, presented.stamp) {
            return Ok(refused(self.alloc, NodeRefusal::Replica(refusal)));
        }
        let answered = answer(self.alloc, self.id, presented, call, &held)?;
        let entry = record(self.id, clock, presented, call, &held)?;
        self.note(clock, presented, call, entry)?;
        Ok(answered)
    }

    // A call whose token is taken. What is held of its block is looked up once.
    fn serve_taken(
        &mut self,
        clock: Moment,
        presented: &Presented,
        call: &TokenCall,
    ) -> Result<Answered, AllocError>
        requires { token_test self.old.keys (spec.access_of clock presented.now call.now) presented.now.token ≡ None }
        ensures ok { OnOk result (self.new ≡ spec.presented_by self.old clock presented.now call.now (spec.call_refusal self.old clock presented.now call.now)) }
        ensures answer { IfOk result (λ answered. answered ≡ spec.told_by self.old presented.now call.now (spec.call_refusal self.old clock presented.now call.now)) }
        ensures err { OnErr result (self.new ≡ self.old) }
    {
        read_bytes(presented.token.as_bytes());
        let (alloc, node, limit) = (self.alloc, self.id, self.limit);
        let Some(held) = self.replicas.get_mut(presented.block) else {
            return self.serve_unheld(clock, presented, call);
        };
        let answered = serve_held(
            alloc,
            node,
            limit,
            clock,
            presented,
            call,
            held,
            &mut self.log,
        )?;
        Ok(answered)
    }

    // A call that presents a token, in the name of who presents it.
    #[tactic(auto, unfolding(crate::specs::NodeStep::presented_after, crate::specs::NodeStep::presented_answer))]
    fn serve(
        &mut self,
        clock: Moment,
        presented: &Presented,
        call: &TokenCall,
    ) -> Result<Answered, AllocError>
        ensures ok { OnOk result (self.new ≡ spec.presented_after self.old clock presented.now call.now) }
        ensures answer { IfOk result (λ answered. answered ≡ spec.presented_answer self.old clock presented.now call.now) }
        ensures err { OnErr result (self.new ≡ self.old) }
    {
        if let Err(refusal) = self.judge(clock, presented, call)? {
            return Ok(self.refuse(clock, NodeRefusal::Token(AtWord::of(refusal))));
        }
        let answered = self.serve_taken(clock, presented, call)?;
        self.move_on(clock);
        Ok(answered)
    }

    // A token, presented in the node's own name.
    fn own(
        &self,
        block: BlockId,
        stamp: Stamp,
        token: &PresentedToken,
    ) -> Result<Presented, AllocError>
        ensures { IfOk result (λ own. own ≡ record { caller = node_principal self.now.id; block = block; stamp = stamp; token = token.now }) }
    {
        Ok(Presented {
            caller: self.principal.clone()?,
            block,
            stamp,
            token: token.clone()?,
        })
    }

    // A call that presents a token.
    #[tactic(auto, unfolding(crate::specs::NodeStep::node_after, crate::specs::NodeStep::node_answer))]
    fn present(
        &mut self,
        now: Moment,
        presented: &Presented,
        call: &TokenCall,
    ) -> Result<Answered, AllocError>
        ensures ok { OnOk result (self.new ≡ spec.node_after self.old now (asked.Presenting presented.now call.now)) }
        ensures answer { IfOk result (λ answered. answered ≡ spec.node_answer self.old now (asked.Presenting presented.now call.now)) }
        ensures err { OnErr result (self.new ≡ self.old) }
    {
        let clock = self.clock.later(now);
        if asking::sends_copy(call) {
            let own = self.own(presented.block, presented.stamp, &presented.token)?;
            return self.serve(clock, &own, call);
        }
        self.serve(clock, presented, call)
    }

    /// Begins a replica at a stamp above all that were held or promised; these nodes come next in the pipeline. Refused as
    /// `ReplicaExists`, `StampDiffers`. Costs a look-up, and these nodes.
    ///
    /// # Errors
    /// Out of memory. Nothing has changed then.
    pub fn begin_write(
        &mut self,
        now: Moment,
        presented: &Presented,
        next: NodeList,
    ) -> Result<Answered, AllocError>
        ensures ok { OnOk result (self.new ≡ spec.node_after self.old now (asked.Presenting presented.now (made.Begin next))) }
        ensures answer { IfOk result (λ answered. answered ≡ spec.node_answer self.old now (asked.Presenting presented.now (made.Begin next))) }
        ensures err { OnErr result (self.new ≡ self.old) }
    {
        self.present(now, presented, &TokenCall::Begin(next))
    }

    /// Writes bytes behind those of a replica, which are so many as the offset says; these nodes come next in the pipeline. Refused as
    /// `NoReplica`, `StampDiffers`, `NotWritable`, `OffsetGap`, `OutOfRange`. Costs a look-up and these nodes; the bytes are
    /// shared, but one byte so many times costs the bytes.
    ///
    /// # Errors
    /// Out of memory. Nothing has changed then.
    pub fn packet(
        &mut self,
        now: Moment,
        presented: &Presented,
        offset: u64,
        bytes: BlockBytes,
        next: NodeList,
    ) -> Result<Answered, AllocError>
        ensures ok { OnOk result (self.new ≡ spec.node_after self.old now (asked.Presenting presented.now (made.Packet offset bytes next))) }
        ensures answer { IfOk result (λ answered. answered ≡ spec.node_answer self.old now (asked.Presenting presented.now (made.Packet offset bytes next))) }
        ensures err { OnErr result (self.new ≡ self.old) }
    {
        self.present(now, presented, &TokenCall::Packet(offset, bytes, next))
    }

    /// Ends the writing of a replica, which has this length; these nodes come next in the pipeline. Refused as `NoReplica`,
    /// `StampDiffers`, `NotWritable`, `OffsetGap`. Costs a look-up, and these nodes.
    ///
    /// # Errors
    /// Out of memory. Nothing has changed then.
    pub fn finalize(
        &mut self,
        now: Moment,
        presented: &Presented,
        length: u64,
        next: NodeList,
    ) -> Result<Answered, AllocError>
        ensures ok { OnOk result (self.new ≡ spec.node_after self.old now (asked.Presenting presented.now (made.Finalize length next))) }
        ensures answer { IfOk result (λ answered. answered ≡ spec.node_answer self.old now (asked.Presenting presented.now (made.Finalize length next))) }
        ensures err { OnErr result (self.new ≡ self.old) }
    {
        self.present(now, presented, &TokenCall::Finalize(length, next))
    }

    /// Reads from an offset of a finalized replica so many bytes. Refused as `NoReplica`, `StampDiffers`, `OutOfRange`. Costs
    /// look-ups, and the pieces that hold such bytes, which are shared.
    ///
    /// # Errors
    /// Out of memory. Nothing has changed then.
    pub fn read(
        &mut self,
        now: Moment,
        presented: &Presented,
        offset: u64,
        length: u64,
    ) -> Result<Answered, AllocError>
        ensures ok { OnOk result (self.new ≡ spec.node_after self.old now (asked.Presenting presented.now (made.Read offset length))) }
        ensures answer { IfOk result (λ answered. answered ≡ spec.node_answer self.old now (asked.Presenting presented.now (made.Read offset length))) }
        ensures err { OnErr result (self.new ≡ self.old) }
    {
        self.present(now, presented, &TokenCall::Read(offset, length))
    }

    /// Begins the recovery of a replica: nothing is written at another stamp from now on. The DataNode in whose name this is asked
    /// leads it, and is told of the replica. Refused as `NoReplica`, `StampDiffers`. Costs a look-up.
    ///
    /// # Errors
    /// Out of memory. Nothing has changed then.
    pub fn init_recovery(
        &mut self,
        now: Moment,
        presented: &Presented,
    ) -> Result<Answered, AllocError>
        ensures ok { OnOk result (self.new ≡ spec.node_after self.old now (asked.Presenting presented.now (made.InitRecovery))) }
        ensures answer { IfOk result (λ answered. answered ≡ spec.node_answer self.old now (asked.Presenting presented.now (made.InitRecovery))) }
        ensures err { OnErr result (self.new ≡ self.old) }
    {
        self.present(now, presented, &TokenCall::InitRecovery)
    }

    /// Ends the recovery of a replica: it has this length, and is finalized. The DataNode in whose name this is asked is told. Refused
    /// as `NoReplica`, `StampDiffers`, `NotWritable`, `OutOfRange`. Costs a look-up, and the pieces that are cut off.
    ///
    /// # Errors
    /// Out of memory. Nothing has changed then.
    pub fn update_replica(
        &mut self,
        now: Moment,
        presented: &Presented,
        length: u64,
    ) -> Result<Answered, AllocError>
        ensures ok { OnOk result (self.new ≡ spec.node_after self.old now (asked.Presenting presented.now (made.UpdateReplica length))) }
        ensures answer { IfOk result (λ answered. answered ≡ spec.node_answer self.old now (asked.Presenting presented.now (made.UpdateReplica length))) }
        ensures err { OnErr result (self.new ≡ self.old) }
    {
        self.present(now, presented, &TokenCall::UpdateReplica(length))
    }

    /// Takes a whole replica, at a stamp not below those that were held or promised. Refused as `ReplicaExists`, `StampDiffers`,
    /// `OutOfRange`. Costs the pieces that the bytes are in; one byte so many times costs the bytes.
    ///
    /// # Errors
    /// Out of memory. Nothing has changed then.
    pub fn take_copy(
        &mut self,
        now: Moment,
        presented: &Presented,
        bytes: BlockBytes,
    ) -> Result<Answered, AllocError>
        ensures ok { OnOk result (self.new ≡ spec.node_after self.old now (asked.Presenting presented.now (made.TakeCopy bytes))) }
        ensures answer { IfOk result (λ answered. answered ≡ spec.node_answer self.old now (asked.Presenting presented.now (made.TakeCopy bytes))) }
        ensures err { OnErr result (self.new ≡ self.old) }
    {
        self.present(now, presented, &TokenCall::TakeCopy(bytes))
    }

    /// Sends a copy of a finalized replica to another node, in this node's own name. Refused as `NoReplica`, `StampDiffers`. Costs the
    /// pieces of the replica, which are shared.
    ///
    /// # Errors
    /// Out of memory. Nothing has changed then.
    #[tactic(auto, unfolding(crate::specs::NodeStep::node_after, crate::specs::NodeStep::node_answer))]
    pub fn send_copy(
        &mut self,
        now: Moment,
        block: BlockId,
        stamp: Stamp,
        token: &PresentedToken,
        to: NodeId,
    ) -> Result<Answered, AllocError>
        ensures ok { OnOk result (self.new ≡ spec.node_after self.old now (spec.copy_call self.old.id block stamp token.now to)) }
        ensures answer { IfOk result (λ answered. answered ≡ spec.node_answer self.old now (spec.copy_call self.old.id block stamp token.now to)) }
        ensures err { OnErr result (self.new ≡ self.old) }
    {
        let clock = self.clock.later(now);
        let own = self.own(block, stamp, token)?;
        self.serve(clock, &own, &TokenCall::SendCopy(to))
    }

    /// Removes a replica whose stamp isn't above this one; what was promised stays. Refused as `NoReplica`, `StampDiffers`. Costs a
    /// look-up, and takes no memory.
    #[tactic(auto, unfolding(crate::specs::NodeStep::node_after, crate::specs::NodeStep::node_answer))]
    pub fn invalidate(&mut self, now: Moment, block: BlockId, stamp: Stamp) -> Answered
        ensures after { self.new ≡ spec.node_after self.old now (asked.Invalidate block stamp) }
        ensures answer { result ≡ spec.node_answer self.old now (asked.Invalidate block stamp) }
    {
        let clock = self.clock.later(now);
        if let Err(refusal) = self.replicas.judge_removal(stamp, block) {
            return self.refuse(clock, NodeRefusal::Replica(refusal));
        }
        self.replicas.remove(block);
        self.move_on(clock);
        Answered {
            result: Ok(NodeReply::Removed),
            messages: Messages::new(self.alloc),
        }
    }

    /// Takes in the keys of an update, and then drops those that have expired. Costs the keys.
    ///
    /// # Errors
    /// Out of memory. Nothing has changed then.
    #[tactic(auto, unfolding(crate::specs::NodeStep::node_after, crate::specs::NodeStep::node_answer))]
    pub fn keys(&mut self, now: Moment, update: &KeyList) -> Result<Answered, AllocError>
        ensures ok { OnOk result (self.new ≡ spec.node_after self.old now (asked.Keys update.now)) }
        ensures answer { IfOk result (λ answered. answered ≡ spec.node_answer self.old now (asked.Keys update.now)) }
        ensures err { OnErr result (self.new ≡ self.old) }
    {
        let clock = self.clock.later(now);
        self.keys.merge(update)?;
        self.clock = clock;
        self.keys.drop_expired(self.clock);
        Ok(Answered {
            result: Ok(NodeReply::Keys(self.keys.len() as u64)),
            messages: Messages::new(self.alloc),
        })
    }

    /// Any call, at the cost of its kind.
    ///
    /// # Errors
    /// Out of memory. Nothing has changed then.
    pub fn call(&mut self, now: Moment, call: &NodeCall) -> Result<Answered, AllocError>
        ensures ok { OnOk result (self.new ≡ spec.node_after self.old now call.now) }
        ensures answer { IfOk result (λ answered. answered ≡ spec.node_answer self.old now call.now) }
        ensures err { OnErr result (self.new ≡ self.old) }
    {
        match call {
            NodeCall::Presenting(presented, call) => self.present(now, presented, call),
            NodeCall::Invalidate(block, stamp) => Ok(self.invalidate(now, *block, *stamp)),
            NodeCall::Keys(update) => self.keys(now, update),
        }
    }
}
