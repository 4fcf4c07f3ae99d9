ghost use Rattle.std.specs.Prelude.{◌≡◌, [], None, Some, option_copied, OnOk, OnErr, IfOk, IfErr};
ghost use Rattle.std.specs.Option.{option_map};
ghost use Rattle.heartbeats.specs.Live.{is_live, live_nodes};
ghost use Rattle.block_changes.specs.Behind.{IsFaultOf};
ghost use Rattle.block_map.specs.BlockFacts.{newest_stamp, committed_length, recovering_since, expected_nodes, transfers_for, due_recoveries, refused_commit, refused_recovery, refused_recovered, known_block};
ghost use Rattle.block_map.specs.BlockEffects as effect;
ghost use Rattle.block_records.specs.Marks.{marks_for};
ghost use Rattle.block_records.specs.declared.block_record.BlockRecord.{BlockRecord};

use block_changes::behind::NewBlock;
use block_changes::instructions::Instructions;
use block_changes::transfer::{HandOut, Transfer};
use block_changes::{behind, ends, instructions, recoveries, removals};
use block_records::block_record::BlockRecord;
use block_records::fault::BlockFault;
use block_records::last_block::LastBlock;
use block_records::mark::{Mark, Marks};
use block_records::node_set::NodeSet;
use block_records::report::ReportVerdict;
use block_records::reports::Reports;
use hdfs_values::ids::{BlockId, Stamp};
use hdfs_values::moment::Moment;
use hdfs_values::replication::Repl;
use heartbeats::heartbeats::Heartbeats;
use known_blocks::known_blocks::KnownBlocks;
use node_ids::node_id::NodeId;
use recovery_queue::begun::BegunRecovery;
use recovery_queue::queue::RecoveryQueue;
use std::alloc::{AllocError, Global};
use std::marker::Model;

/// What the NameNode knows of blocks, and of the DataNodes that hold them (HDFS Architecture, "Data Replication").
pub struct Blocks {
    // in milliseconds
    retry: u32,
    known: KnownBlocks,
    nodes: Heartbeats,
    marks: Marks,
    queue: RecoveryQueue,
    alloc: Global,
}

impl Drop for Blocks {
    fn drop(self) {
        let Blocks {
            retry: _,
            known,
            nodes,
            marks,
            queue,
            alloc,
        } = self;
        drop(known);
        drop(nodes);
        drop(marks);
        drop(queue);
        drop(alloc);
    }
}

impl Model for Blocks {
    ghost use Rattle.block_map.specs.BlockFacts.{Blocks};

    ghost Value = { Blocks };

    ghost view = { λ blocks. record { retry = blocks.retry; known = blocks.known; nodes = blocks.nodes; marks = blocks.marks; queued = blocks.queue } };
}

impl Blocks {
    /// No block is known, and no DataNode. The limits are in milliseconds; blocks and stamps are given from these numbers on.
    /// Takes no memory.
    pub fn new(
        alloc: Global,
        dead: u32,
        retry: u32,
        first_block: BlockId,
        first_stamp: Stamp,
    ) -> Blocks
        ensures { result ≡ record { retry = retry; known = record { next_block = first_block; next_stamp = first_stamp; blocks = [] }; nodes = record { dead = dead; last = [] }; marks = []; queued = [] } }
    {
        Blocks {
            retry,
            known: KnownBlocks::new(alloc, first_block, first_stamp),
            nodes: Heartbeats::new(alloc, dead),
            marks: Marks::new(alloc),
            queue: RecoveryQueue::new(alloc),
            alloc,
        }
    }

    // ---- questions

    /// The newest stamp of a block that is known. Costs a look-up, and takes no memory.
    pub fn newest(&self, block: BlockId) -> Option<Stamp>
        ensures { result ≡ newest_stamp self.now block }
    {
        match self.known.get(block) {
            Some(own) => Some(own.stamp),
            None => None,
        }
    }

    /// The length of a block that is committed. Costs a look-up, and takes no memory.
    pub fn committed(&self, block: BlockId) -> Option<u64>
        ensures { result ≡ committed_length self.now block }
    {
        match self.known.get(block) {
            Some(own) => own.committed,
            None => None,
        }
    }

    /// When the recovery began that a block is in. Costs a look-up, and takes no memory.
    pub fn recovering_since(&self, block: BlockId) -> Option<Moment>
        ensures { result ≡ recovering_since self.now block }
    {
        match self.known.get(block) {
            Some(own) => own.recovering,
            None => None,
        }
    }

    /// What is known of a block. Costs a look-up, and takes no memory.
    pub fn get(&self, block: BlockId) -> Option<&BlockRecord>
        ensures { option_copied result ≡ known_block self.now block }
    {
        self.known.get(block)
    }

    /// The nodes that are to hold a block; none where it isn't known. Costs a look-up, and takes no memory.
    pub fn expected(&self, block: BlockId) -> &[NodeId]
        ensures { result.now ≡ expected_nodes self.now block }
    {
        match self.known.get(block) {
            Some(own) => own.expected.as_slice(),
            None => &[],
        }
    }

    /// The nodes that reported a block at its newest stamp, with the lengths that they reported; `None` where the block isn't
    /// known. Costs a look-up, and takes no memory.
    pub fn reporting(&self, block: BlockId) -> Option<&Reports>
        ensures { option_copied result ≡ option_map (λ (own : BlockRecord). own.reports) (known_block self.now block) }
    {
        match self.known.get(block) {
            Some(own) => Some(&own.reports),
            None => None,
        }
    }

    /// Whether a node's last heartbeat isn't older than the limit. Costs a look-up, and takes no memory.
    pub fn is_live(&self, node: NodeId, now: Moment) -> bool
        ensures { result ≡ is_live self.now.nodes now node }
    {
        self.nodes.is_live(node, now)
    }

    /// The nodes that are live. Costs a step for each node that ever sent a heartbeat.
    ///
    /// # Errors
    /// Out of memory.
    pub fn live_nodes(&self, now: Moment) -> Result<NodeSet, AllocError>
        ensures { IfOk result (λ nodes. nodes ≡ live_nodes self.now.nodes now) }
    {
        self.nodes.live(now)
    }

    // ---- new blocks

    /// The id of the next new block, where one is left. Takes no memory.
    pub fn next_block(&self) -> BlockId
        ensures { result ≡ self.now.known.next_block }
    {
        self.known.next_block()
    }

    /// The next generation stamp, which a new block or a recovery gets, where one is left. Takes no memory.
    pub fn next_stamp(&self) -> Stamp
        ensures { result ≡ self.now.known.next_stamp }
    {
        self.known.next_stamp()
    }

    /// What a new block of a file would be: the length of the file's last block would be committed, where one is named, and behind that
    /// the live nodes with the fewest blocks, ties to the lowest id, would hold the new block, as many as there are to be replicas, or
    /// all. It would get the next id and the next stamp. Nothing changes: `add_planned` adds it. Costs a step for each node that ever sent
    /// a heartbeat, a sort of the live nodes, and a look-up and the reports of the last block for each live node.
    ///
    /// # Errors
    /// `NotYetReplicated` where no node reported that length, `TooFewNodes` where no node is live, `Spent` of block ids, and then of
    /// stamps, or out of memory.
    pub fn plan_behind(
        &self,
        last: &Option<LastBlock>,
        replication: Repl,
        now: Moment,
    ) -> Result<NewBlock, BlockFault>
        ensures allowed { OnOk result (effect.refused_behind self.now last.now now ≡ None) }
        ensures given { IfOk result (λ new. new ≡ effect.given_behind self.now last.now now replication) }
        ensures fault { IfErr result (IsFaultOf (effect.refused_behind self.now last.now now)) }
    {
        let live = self.nodes.live(now)?;
        behind::plan_behind(&self.known, &live, last, replication)
    }

    /// Adds the block to a file that `plan_behind` told with the same arguments, on the nodes that it told: the length of the file's last
    /// block is committed, where one is named, and each node that reported another length of it is to remove its replica. Costs a
    /// look-up for each of the nodes, the reports of the last block, and the marks of replicas that are to be removed.
    ///
    /// # Errors
    /// Out of memory. Nothing has changed then.
    pub fn add_planned(
        &mut self,
        last: &Option<LastBlock>,
        targets: NodeSet,
        replication: Repl,
        now: Moment,
    ) -> Result<(), AllocError>
        requires allowed { effect.refused_behind self.old last.now now ≡ None }
        requires given { targets ≡ (effect.given_behind self.old last.now now replication).targets }
        ensures added { OnOk result (self.new ≡ effect.added_behind self.old last.now now replication) }
        ensures err { OnErr result (self.new ≡ self.old) }
    {
        behind::add_planned(
            self.alloc,
            &mut self.known,
            &mut self.marks,
            last,
            targets,
            replication,
        )
    }

    /// Gives a block another replication; nothing changes where the block isn't known. Costs a look-up. May take memory for the list of
    /// blocks with too few replicas, and doesn't fail for want of it.
    pub fn set_replication(&mut self, block: BlockId, replication: Repl)
        ensures { self.new ≡ effect.with_block_replication self.old block replication }
    {
        self.known.set_replication(block, replication);
    }

    /// Makes a block known no more: each node that was to hold it or reported it is to remove its replica of the newest stamp. Nothing
    /// changes where the block isn't known. Costs a look-up for each of these nodes.
    ///
    /// # Errors
    /// Out of memory. Nothing has changed then.
    pub fn remove(&mut self, block: BlockId) -> Result<(), AllocError>
        ensures ok { OnOk result (self.new ≡ effect.with_block_removed self.old block) }
        ensures err { OnErr result (self.new ≡ self.old) }
    {
        removals::remove(
            self.alloc,
            &mut self.known,
            &mut self.marks,
            &mut self.queue,
            block,
        )
    }

    /// Makes blocks known no more, all of them or none. Costs as `remove` for each of them.
    ///
    /// # Errors
    /// Out of memory. Nothing has changed then.
    pub fn remove_all(&mut self, blocks: &[BlockId]) -> Result<(), AllocError>
        ensures ok { OnOk result (self.new ≡ effect.with_blocks_removed self.old blocks.now) }
        ensures err { OnErr result (self.new ≡ self.old) }
    {
        removals::remove_all(
            self.alloc,
            &mut self.known,
            &mut self.marks,
            &mut self.queue,
            blocks,
        )
    }

    // ---- lengths

    /// Commits a length of a block, which a node has to have reported: each node that reported another length is to remove its
    /// replica. A committed block may be committed with its own length again. Costs the reports of the block.
    ///
    /// # Errors
    /// `NotYetReplicated` where no node reported that length, or out of memory. Nothing has changed then.
    pub fn commit(&mut self, block: BlockId, length: u64) -> Result<(), BlockFault>
        ensures reported { OnOk result (refused_commit self.old block length ≡ None) }
        ensures ok { OnOk result (self.new ≡ effect.with_length_committed self.old block length) }
        ensures fault { IfErr result (IsFaultOf (refused_commit self.old block length)) }
        ensures err { OnErr result (self.new ≡ self.old) }
    {
        let last = LastBlock { block, length };
        behind::commit(self.alloc, &mut self.known, &mut self.marks, &last)
    }

    // ---- recoveries

    /// Begins a recovery of a block under the next stamp, which is answered and which nobody has reported: of the expected nodes the
    /// live one that was heard of last is to lead it, and is told so with its next heartbeat. A recovery of the block that waits for
    /// another node is forgotten. Costs a look-up for each of the expected nodes, and one for each node that reported the block.
    ///
    /// # Errors
    /// `NotFound` where the block isn't known, `Spent` of stamps, `TooFewNodes` where no expected node is live, or out of memory. Nothing
    /// has changed then.
    pub fn begin_recovery(&mut self, block: BlockId, now: Moment) -> Result<Stamp, BlockFault>
        ensures allowed { OnOk result (refused_recovery self.old block now ≡ None) }
        ensures given { IfOk result (λ stamp. stamp ≡ self.old.known.next_stamp) }
        ensures begun { OnOk result (self.new ≡ effect.with_recovery_begun self.old block now) }
        ensures fault { IfErr result (IsFaultOf (refused_recovery self.old block now)) }
        ensures err { OnErr result (self.new ≡ self.old) }
    {
        recoveries::begin(&mut self.known, &mut self.queue, &self.nodes, block, now)
    }

    /// The recoveries that can begin of these blocks now, in this order: of each block of which an expected node is live, as long as
    /// stamps are left, with the stamp that it gets and the node that is to lead it; the others are passed over. Nothing changes:
    /// `begin_recoveries` begins them. Costs a look-up for each of the expected nodes of each block.
    ///
    /// # Errors
    /// Out of memory.
    pub fn plan_recoveries(
        &self,
        blocks: &[BlockId],
        now: Moment,
    ) -> Result<Vec<BegunRecovery>, AllocError>
        ensures { IfOk result (λ begun. begun.items ≡ effect.recoveries_begun self.now blocks.now now) }
    {
        recoveries::plan(self.alloc, &self.known, &self.nodes, blocks, now)
    }

    /// Begins the recoveries of these blocks that `plan_recoveries` told of them, all of them or none; each waits for the next heartbeat of
    /// the node that is to lead it, and one of the same block that waits is forgotten. Where there is none to begin it costs nothing; else
    /// a copy of the recoveries that wait, a look-up for each that begins, and one for each node that reported such a block.
    ///
    /// # Errors
    /// Out of memory. Nothing has changed then.
    pub fn begin_recoveries(
        &mut self,
        blocks: &[BlockId],
        planned: &[BegunRecovery],
        now: Moment,
    ) -> Result<(), AllocError>
        requires { planned.now ≡ effect.recoveries_begun self.old blocks.now now }
        ensures begun { OnOk result (self.new ≡ effect.with_recoveries_begun self.old blocks.now now) }
        ensures err { OnErr result (self.new ≡ self.old) }
    {
        // they were planned of these
        let _blocks = blocks;
        self.known.begin_all(planned, now, &mut self.queue)
    }

    /// The retry limit, in milliseconds. Takes no memory.
    pub fn retry(&self) -> u32
        ensures { result ≡ self.now.retry }
    {
        self.retry
    }

    /// The blocks whose recovery began more than the retry limit ago, by their ids: it is to be begun anew. Costs a look-up for each
    /// recovery that runs.
    ///
    /// # Errors
    /// Out of memory.
    pub fn due_recoveries(&self, now: Moment) -> Result<Vec<BlockId>, AllocError>
        ensures { IfOk result (λ blocks. blocks.items ≡ due_recoveries self.now now) }
    {
        self.known.due_recoveries(self.retry, now)
    }

    /// Ends the recovery of a block that runs under its newest stamp: the length is committed, these nodes are to hold the block and
    /// report it, and each other node that reported another length is to remove its replica. Costs a look-up for each node that holds the
    /// block, before or behind it.
    ///
    /// # Errors
    /// `NotFound` where the block isn't known, `StaleStamp` where another stamp is its newest, `NotOpen` where no recovery runs, or out of
    /// memory. Nothing has changed then.
    pub fn commit_recovery(
        &mut self,
        block: BlockId,
        stamp: Stamp,
        length: u64,
        nodes: NodeSet,
    ) -> Result<(), BlockFault>
        ensures allowed { OnOk result (refused_recovered self.old block stamp ≡ None) }
        ensures ok { OnOk result (self.new ≡ effect.with_recovery_ended self.old block length nodes) }
        ensures fault { IfErr result (IsFaultOf (refused_recovered self.old block stamp)) }
        ensures err { OnErr result (self.new ≡ self.old) }
    {
        ends::end(
            self.alloc,
            &mut self.known,
            &mut self.marks,
            block,
            stamp,
            length,
            nodes,
        )
    }

    // ---- reports

    // Has a node told to remove its replica, and ends its report where that has the newest stamp.
    fn invalidate(&mut self, node: NodeId, block: BlockId, stamp: Stamp) -> Result<(), AllocError>
        ensures ok { OnOk result (self.new ≡ effect.with_replica_invalid self.old node block stamp) }
        ensures err { OnErr result (self.new ≡ self.old) }
    {
        let newest = self.newest(block);
        self.marks.add(Mark { node, block, stamp })?;
        if newest == Some(stamp) {
            self.known.end_report(block, node);
        }
        Ok(())
    }

    /// Takes in a node's report of a replica. A replica of a block that isn't known is to be removed; a report from before a
    /// recovery that runs does nothing; a replica of another stamp than the newest, or of another length than the committed one,
    /// is to be removed; else the node reports the block. Costs a look-up of the block, and one among its nodes.
    ///
    /// # Errors
    /// Out of memory. Nothing has changed then.
    pub fn report(
        &mut self,
        node: NodeId,
        block: BlockId,
        stamp: Stamp,
        length: u64,
    ) -> Result<(), AllocError>
        ensures ok { OnOk result (self.new ≡ effect.with_replica_reported self.old node block stamp length) }
        ensures err { OnErr result (self.new ≡ self.old) }
    {
        match self.known.report(block, node, stamp, length)? {
            ReportVerdict::Superseded => Ok(()),
            ReportVerdict::Invalid => self.invalidate(node, block, stamp),
            ReportVerdict::Valid => Ok(()),
        }
    }

    // ---- nodes

    /// The replicas that a node is still to be told to remove, by block and then by stamp. Costs a look-up for each of them, and a step for
    /// each that is to be removed since a node was last told.
    ///
    /// # Errors
    /// Out of memory.
    pub fn invalid_for(&self, node: NodeId) -> Result<Vec<Mark>, AllocError>
        ensures { IfOk result (λ marks. marks.items ≡ marks_for node self.now.marks) }
    {
        self.marks.for_node(self.alloc, node)
    }

    /// The copies that a node is to make, by block: of each committed block that fewer live nodes report than there are to be replicas,
    /// where the node is the lowest live one that reports it and nobody was told to copy it within the retry limit. It goes to the live node
    /// with the fewest blocks, ties to the lowest id, of those that don't report it. Costs a step for each node that ever sent a
    /// heartbeat, a step for each that ever held a block, the live nodes for each block of this node, and a sort of them for each copy; but
    /// where all nodes that hold blocks are live, only blocks are looked at of which fewer replicas were reported than there are to be.
    ///
    /// # Errors
    /// Out of memory.
    pub fn under_replicated(&self, node: NodeId, now: Moment) -> Result<Vec<Transfer>, AllocError>
        ensures { IfOk result (λ transfers. transfers.items ≡ transfers_for self.now now node) }
    {
        let at = HandOut {
            live: self.live_nodes(now)?,
            moment: now,
            retry: self.retry,
        };
        block_changes::transfer::transfers_for(self.alloc, &self.known, &at, node)
    }

    /// Notes a node's heartbeat. Costs a look-up, and a node's first one a step for each node of a higher id.
    ///
    /// # Errors
    /// Out of memory, which only a node's first heartbeat can meet. Nothing has changed then.
    pub fn heartbeat(&mut self, node: NodeId, now: Moment) -> Result<(), AllocError>
        ensures ok { OnOk result (self.new ≡ effect.with_node_heard self.old node now) }
        ensures err { OnErr result (self.new ≡ self.old) }
    {
        self.nodes.beat(node, now)
    }

    /// What a node is to be told at its heartbeat now, behind which it is live: the recoveries that it is to lead, the replicas that it is
    /// to remove, and the copies that it is to make. Costs a step for each node that ever sent a heartbeat, and where this is the node's
    /// first, a copy of what is known of nodes; a look-up for each node that holds blocks, each recovery and each replica, and a step for
    /// each replica that is to be removed since a node was last told; the live nodes for each block of this node, and a sort of them for
    /// each copy. But where all nodes that hold blocks are live, only blocks are looked at of which fewer replicas were reported than there
    /// are to be: an idle heartbeat costs nothing for its node's blocks.
    ///
    /// # Errors
    /// Out of memory.
    pub fn instructions(&self, node: NodeId, now: Moment) -> Result<Instructions, AllocError>
        ensures { IfOk result (λ told. told ≡ effect.instructions_for self.now now node) }
    {
        let retry = self.retry;
        let at = HandOut {
            live: self.nodes.live_behind(node, now)?,
            moment: now,
            retry,
        };
        instructions::orders_for(self.alloc, &self.known, &self.queue, &self.marks, &at, node)
    }

    /// Notes a node's heartbeat, and that it is told this, which is what `instructions` answers now: none of it is told again, but a copy
    /// behind the retry limit. Costs a look-up for each part of it, and for each replica that is to be removed since a node was last
    /// told, and a node's first heartbeat a step for each node of a higher id.
    ///
    /// # Errors
    /// Out of memory, which only a node's first heartbeat can meet. Nothing has changed then.
    pub fn hand_out(
        &mut self,
        node: NodeId,
        now: Moment,
        told: &Instructions,
    ) -> Result<(), AllocError>
        requires { told.now ≡ effect.instructions_for self.old now node }
        ensures ok { OnOk result (self.new ≡ effect.with_heartbeat_answered self.old node now) }
        ensures err { OnErr result (self.new ≡ self.old) }
    {
        self.nodes.beat(node, now)?;
        instructions::hand_out(
            &mut self.known,
            &mut self.queue,
            &mut self.marks,
            node,
            now,
            told,
        );
        Ok(())
    }
}
