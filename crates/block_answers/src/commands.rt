ghost use Rattle.std.specs.Prelude.{◌≡◌, [], IfOk, unwrap_or};
ghost use Rattle.std.specs.Option.{option_map};

use crate::key_list::KeyList;
use crate::token_bytes::TokenBytes;
use block_records::node_set::NodeSet;
use hdfs_values::ids::{BlockId, Stamp};
use node_ids::node_id::NodeId;
use std::alloc::{AllocError, Global};
use std::marker::Model;
use std::sync::Arc;

/// What a DataNode is told that is to lead the recovery of a block (HDFS-265, "Block recovery"): the stamp that the block gets, the
/// nodes that are to hold the block, live or not, and the token that the leading node presents to them.
pub struct Recover {
    pub block: BlockId,
    pub stamp: Stamp,
    pub nodes: NodeSet,
    pub token: TokenBytes,
}

impl Drop for Recover {
    fn drop(self) {
        let Recover {
            block: _,
            stamp: _,
            nodes,
            token,
        } = self;
        drop(nodes);
        drop(token);
    }
}

/// A replica that a DataNode is to remove (`DNA_INVALIDATE` of the DataNode protocol).
#[derive(Clone, Copy, PartialEq, Eq)]
pub struct Removal {
    pub block: BlockId,
    pub stamp: Stamp,
}

/// A replica that a DataNode is to copy to another (`DNA_TRANSFER` of the DataNode protocol), with the token that it presents there.
pub struct CopyOrder {
    pub block: BlockId,
    pub stamp: Stamp,
    /// The DataNode that the copy is for.
    pub target: NodeId,
    pub token: TokenBytes,
}

impl Drop for CopyOrder {
    fn drop(self) {
        let CopyOrder {
            block: _,
            stamp: _,
            target: _,
            token,
        } = self;
        drop(token);
    }
}

// What a node is told to do at one heartbeat.
#[derive(Drop)]
struct Orders {
    recoveries: Vec<Recover>,
    removals: Vec<Removal>,
    copies: Vec<CopyOrder>,
}

// The commands of one heartbeat. Most have no orders, and a history keeps them all.
#[derive(Drop)]
struct CommandLists {
    keys: KeyList,
    orders: Option<Box<Orders>>,
}

/// What a DataNode is told with the answer to its heartbeat, in this order: the keys under which tokens serve, the recoveries that it
/// is to lead, the replicas that it is to remove, and those that it is to copy (HDFS Architecture, "Data Disk Failure, Heartbeats and
/// Re-Replication"). Copies of it share the lists.
pub struct Commands {
    lists: Arc<CommandLists>,
}

impl Drop for Commands {
    fn drop(self) {
        let Commands { lists } = self;
        drop(lists);
    }
}

impl Model for Commands {
    ghost use Rattle.block_answers.specs.Commands.{Commands};

    ghost Value = { Commands };

    ghost use Rattle.std.specs.Prelude.{[], unwrap_or};
    ghost use Rattle.std.specs.Option.{option_map};

    ghost view = { λ commands. record {
      keys = commands.lists.value.keys;
      recoveries = unwrap_or (option_map (λ orders. orders.value.recoveries.items) commands.lists.value.orders) [];
      removals = unwrap_or (option_map (λ orders. orders.value.removals.items) commands.lists.value.orders) [];
      copies = unwrap_or (option_map (λ orders. orders.value.copies.items) commands.lists.value.orders) [];
    } };
}

// Orders in a box, where there are any.
fn boxed(
    alloc: Global,
    recoveries: Vec<Recover>,
    removals: Vec<Removal>,
    copies: Vec<CopyOrder>,
) -> Result<Option<Box<Orders>>, AllocError>
    ensures recoveries { IfOk result (λ orders. unwrap_or (option_map (λ orders. orders.value.recoveries.items) orders) [] ≡ recoveries.items) }
    ensures removals { IfOk result (λ orders. unwrap_or (option_map (λ orders. orders.value.removals.items) orders) [] ≡ removals.items) }
    ensures copies { IfOk result (λ orders. unwrap_or (option_map (λ orders. orders.value.copies.items) orders) [] ≡ copies.items) }
{
    if recoveries.is_empty() && removals.is_empty() && copies.is_empty() {
        return Ok(None);
    }
    let orders = Orders {
        recoveries,
        removals,
        copies,
    };
    Ok(Some(Box::new(alloc, orders)?))
}

impl Commands {
    /// These commands.
    ///
    /// # Errors
    /// Out of memory.
    pub fn new(
        alloc: Global,
        keys: KeyList,
        recoveries: Vec<Recover>,
        removals: Vec<Removal>,
        copies: Vec<CopyOrder>,
    ) -> Result<Commands, AllocError>
        ensures { IfOk result (λ commands. commands ≡ record { keys = keys; recoveries = recoveries.items; removals = removals.items; copies = copies.items }) }
    {
        let orders = boxed(alloc, recoveries, removals, copies)?;
        let lists = CommandLists { keys, orders };
        Ok(Commands {
            lists: Arc::new(alloc, lists)?,
        })
    }

    /// The keys under which tokens serve, by their serials.
    pub fn keys(&self) -> &KeyList
        ensures { result.now ≡ self.now.keys }
    {
        &self.lists.keys
    }

    /// The recoveries that the node is to lead, by block.
    pub fn recoveries(&self) -> &[Recover]
        ensures { result.now ≡ self.now.recoveries }
    {
        match &self.lists.orders {
            Some(orders) => &orders.recoveries,
            None => &[],
        }
    }

    /// The replicas that the node is to remove, by block and then by stamp.
    pub fn removals(&self) -> &[Removal]
        ensures { result.now ≡ self.now.removals }
    {
        match &self.lists.orders {
            Some(orders) => &orders.removals,
            None => &[],
        }
    }

    /// The replicas that the node is to copy, by block.
    pub fn copies(&self) -> &[CopyOrder]
        ensures { result.now ≡ self.now.copies }
    {
        match &self.lists.orders {
            Some(orders) => &orders.copies,
            None => &[],
        }
    }
}

impl Clone for Commands {
    ghost is_clone = { λ commands copy. copy ≡ commands };

    fn clone(&self) -> Result<Commands, AllocError> {
        Ok(Commands {
            lists: self.lists.clone()?,
        })
    }
}
