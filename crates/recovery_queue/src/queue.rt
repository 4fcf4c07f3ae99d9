ghost use Rattle.std.specs.Prelude.{◌≡◌, [], IfOk, OnOk, OnErr};
ghost use Rattle.recovery_queue.specs.Queue.{put, all_put, without_recovery, without_each, led_by, without_led_by};

use crate::begun::BegunRecovery;
use block_index::node_blocks::NodeBlocks;
use hdfs_values::ids::BlockId;
use node_ids::node_id::NodeId;
use std::alloc::{AllocError, Global};
use std::collections::BTreeMap;
use std::marker::Model;

/// The blocks whose recovery waits until the next heartbeat of the DataNode that is to lead it, each with this node, its primary
/// (HDFS-265: the NameNode has one DataNode lead the recovery of a block).
#[derive(Drop)]
pub struct RecoveryQueue {
    primaries: BTreeMap<BlockId, NodeId>,
    // for each primary its blocks
    blocks: NodeBlocks,
}

impl Model for RecoveryQueue {
    ghost use Rattle.std.specs.Prelude.{List, ℕ};
    ghost use Rattle.recovery_queue.specs.Queue.{IsQueueIndexed};

    ghost Value = { List (ℕ × ℕ) };

    ghost view = { λ queue. queue.primaries.entries };

    ghost invariant = { λ queue. IsQueueIndexed queue.primaries.entries queue.blocks };
}

impl RecoveryQueue {
    /// No recovery waits. Takes no memory.
    pub fn new(alloc: Global) -> RecoveryQueue
        ensures { result ≡ [] }
    {
        RecoveryQueue {
            primaries: BTreeMap::new(alloc),
            blocks: NodeBlocks::new(alloc),
        }
    }

    /// Has the recovery of a block wait for this primary; one of the block that waits for another is dropped. Costs a look-up.
    ///
    /// # Errors
    /// Out of memory. Nothing has changed then.
    pub fn put(&mut self, block: BlockId, primary: NodeId) -> Result<(), AllocError>
        ensures ok { OnOk result (self.new ≡ put self.old block primary) }
        ensures err { OnErr result (self.new ≡ self.old) }
    {
        self.blocks.insert(primary, block)?;
        let Ok(older) = self.primaries.insert(block, primary) else {
            self.blocks.remove(primary, block);
            return Err(AllocError);
        };
        if let Some(older) = older {
            if older != primary {
                self.blocks.remove(older, block);
            }
        }
        Ok(())
    }

    // Has these recoveries wait, up to the first for which there is no memory.
    fn put_each(&mut self, begun: &[BegunRecovery]) -> Result<(), AllocError>
        ensures { OnOk result (self.new ≡ all_put self.old begun.now) }
    {
        for own in begun {
            self.put(own.block, own.primary)?;
        }
        Ok(())
    }

    /// Has these recoveries wait, each for its primary, all of them or none; one of the same block that waits is dropped. Where
    /// there are some, costs a copy of what waits, and a look-up for each.
    ///
    /// # Errors
    /// Out of memory. Nothing has changed then.
    pub fn put_all(&mut self, begun: &[BegunRecovery]) -> Result<(), AllocError>
        ensures ok { OnOk result (self.new ≡ all_put self.old begun.now) }
        ensures err { OnErr result (self.new ≡ self.old) }
    {
        if begun.is_empty() {
            return Ok(());
        }
        let mut more = self.clone()?;
        more.put_each(begun)?;
        *self = more;
        Ok(())
    }

    /// Ends the waiting of a block's recovery, if it waits. Costs a look-up, and takes no memory.
    pub fn forget(&mut self, block: BlockId)
        ensures { self.new ≡ without_recovery self.old block }
    {
        if let Some(primary) = self.primaries.remove(&block) {
            self.blocks.remove(primary, block);
        }
    }

    /// Ends the waiting of the recoveries of these blocks. Costs a look-up for each, and takes no memory.
    pub fn forget_each(&mut self, blocks: &[BlockId])
        ensures { self.new ≡ without_each self.old blocks.now }
    {
        for block in blocks {
            self.forget(*block);
        }
    }

    /// The blocks whose recovery a node is to lead, by their ids. Costs them.
    ///
    /// # Errors
    /// Out of memory.
    pub fn led(&self, alloc: Global, node: NodeId) -> Result<Vec<BlockId>, AllocError>
        ensures { IfOk result (λ blocks. blocks.items ≡ led_by node self.now) }
    {
        // its contract tells that the keys ascend
        let _count = self.primaries.len();
        self.blocks.blocks(alloc, node)
    }

    /// Takes out the blocks whose recovery a node is to lead: it was told of them. Costs a look-up for each, and takes no memory.
    pub fn forget_led(&mut self, node: NodeId)
        ensures { self.new ≡ without_led_by self.old node }
    {
        // its contract tells that the keys ascend
        let _count = self.primaries.len();
        let blocks = self.blocks.take(node);
        blocks.remove_from(&mut self.primaries);
    }
}

impl Clone for RecoveryQueue {
    ghost is_clone = { λ queue copy. copy ≡ queue };

    fn clone(&self) -> Result<RecoveryQueue, AllocError> {
        Ok(RecoveryQueue {
            primaries: self.primaries.clone()?,
            blocks: self.blocks.clone()?,
        })
    }
}
