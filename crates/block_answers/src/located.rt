ghost use Rattle.std.specs.Prelude.{◌≡◌, IfOk};

use crate::token_bytes::TokenBytes;
use block_records::node_set::NodeSet;
use hdfs_values::ids::{BlockId, Stamp};
use std::alloc::{AllocError, Global};
use std::marker::Model;
use std::sync::Arc;

// What a writer is given.
#[derive(Drop)]
struct AddedParts {
    block: BlockId,
    stamp: Stamp,
    targets: NodeSet,
    token: TokenBytes,
}

/// What a writer is given who asks for a new block: its id, its generation stamp, the DataNodes that are to hold it, and the token with
/// which it is written there (HDFS Architecture, "Replication Pipelining"). Copies of it share its parts.
pub struct AddedBlock {
    parts: Arc<AddedParts>,
}

impl Drop for AddedBlock {
    fn drop(self) {
        let AddedBlock { parts } = self;
        drop(parts);
    }
}

impl Model for AddedBlock {
    ghost use Rattle.block_answers.specs.LocatedBlocks.{AddedBlock};

    ghost Value = { AddedBlock };

    ghost view = { λ added. record {
      block = added.parts.value.block;
      stamp = added.parts.value.stamp;
      targets = added.parts.value.targets;
      token = added.parts.value.token;
    } };
}

impl AddedBlock {
    /// A block of this id and stamp, which these nodes are to hold.
    ///
    /// # Errors
    /// Out of memory.
    pub fn new(
        alloc: Global,
        block: BlockId,
        stamp: Stamp,
        targets: NodeSet,
        token: TokenBytes,
    ) -> Result<AddedBlock, AllocError>
        ensures { IfOk result (λ added. added ≡ record { block = block; stamp = stamp; targets = targets; token = token }) }
    {
        let parts = AddedParts {
            block,
            stamp,
            targets,
            token,
        };
        Ok(AddedBlock {
            parts: Arc::new(alloc, parts)?,
        })
    }

    /// The id of the block.
    pub fn block(&self) -> BlockId
        ensures { result ≡ self.now.block }
    {
        self.parts.block
    }

    /// The generation stamp.
    pub fn stamp(&self) -> Stamp
        ensures { result ≡ self.now.stamp }
    {
        self.parts.stamp
    }

    /// The DataNodes that are to hold the block.
    pub fn targets(&self) -> &NodeSet
        ensures { result.now ≡ self.now.targets }
    {
        &self.parts.targets
    }

    /// The token with which the block is written.
    pub fn token(&self) -> &TokenBytes
        ensures { result.now ≡ self.now.token }
    {
        &self.parts.token
    }
}

impl Clone for AddedBlock {
    ghost is_clone = { λ added copy. copy ≡ added };

    fn clone(&self) -> Result<AddedBlock, AllocError> {
        Ok(AddedBlock {
            parts: self.parts.clone()?,
        })
    }
}

/// A block of a file as a reader is told of it: its id, its generation stamp, its length in bytes, the DataNodes that reported it, and
/// the token with which it is read there (HDFS Architecture, "Data Replication"; HADOOP-4359 for the token).
pub struct LocatedBlock {
    pub block: BlockId,
    pub stamp: Stamp,
    /// In bytes.
    pub length: u64,
    /// The DataNodes that reported the block.
    pub nodes: NodeSet,
    pub token: TokenBytes,
}

impl Drop for LocatedBlock {
    fn drop(self) {
        let LocatedBlock {
            block: _,
            stamp: _,
            length: _,
            nodes,
            token,
        } = self;
        drop(nodes);
        drop(token);
    }
}

// What a reader is told.
#[derive(Drop)]
struct OpenedParts {
    length: u64,
    blocks: Vec<LocatedBlock>,
}

/// What a reader is told of a file: its length in bytes, and its blocks whose length is committed, in their order. Copies of it share
/// its parts.
pub struct OpenedFile {
    parts: Arc<OpenedParts>,
}

impl Drop for OpenedFile {
    fn drop(self) {
        let OpenedFile { parts } = self;
        drop(parts);
    }
}

impl Model for OpenedFile {
    ghost use Rattle.block_answers.specs.LocatedBlocks.{OpenedFile};

    ghost Value = { OpenedFile };

    ghost view = { λ opened. record { length = opened.parts.value.length; blocks = opened.parts.value.blocks.items } };
}

impl OpenedFile {
    /// A file of this length with these blocks.
    ///
    /// # Errors
    /// Out of memory.
    pub fn new(
        alloc: Global,
        length: u64,
        blocks: Vec<LocatedBlock>,
    ) -> Result<OpenedFile, AllocError>
        ensures { IfOk result (λ opened. opened ≡ record { length = length; blocks = blocks.items }) }
    {
        let parts = OpenedParts { length, blocks };
        Ok(OpenedFile {
            parts: Arc::new(alloc, parts)?,
        })
    }

    /// In bytes.
    pub fn length(&self) -> u64
        ensures { result ≡ self.now.length }
    {
        self.parts.length
    }

    /// The blocks whose length is committed, in the order of the file.
    pub fn blocks(&self) -> &[LocatedBlock]
        ensures { result.now ≡ self.now.blocks }
    {
        &self.parts.blocks
    }
}

impl Clone for OpenedFile {
    ghost is_clone = { λ opened copy. copy ≡ opened };

    fn clone(&self) -> Result<OpenedFile, AllocError> {
        Ok(OpenedFile {
            parts: self.parts.clone()?,
        })
    }
}
