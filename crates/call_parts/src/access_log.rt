ghost use Rattle.std.specs.Prelude.{◌≡◌, ◌++◌, ◌-◌, [], ◌∷◌, take, length, OnOk, OnErr};

use crate::presented::PresentedToken;
use hdfs_values::ids::BlockId;
use hdfs_values::moment::Moment;
use hdfs_values::who::Who;
use node_ids::node_id::NodeId;
use permission_bits::modes::Modes;
use std::alloc::{AllocError, Global};
use std::marker::Model;

/// That a DataNode let a caller at a block for the token that he presented.
pub struct AccessRecord {
    /// The DataNode that let him.
    pub node: NodeId,
    /// The node's clock.
    pub moment: Moment,
    /// Who presented the token.
    pub caller: Who,
    pub block: BlockId,
    /// To read or to write.
    pub mode: Modes,
    /// In bytes.
    pub offset: u64,
    /// In bytes.
    pub length: u64,
    /// What he presented.
    pub token: PresentedToken,
}

impl Drop for AccessRecord {
    fn drop(self) {
        let AccessRecord {
            node: _,
            moment: _,
            caller,
            block: _,
            mode: _,
            offset: _,
            length: _,
            token,
        } = self;
        drop(caller);
        drop(token);
    }
}

impl Clone for AccessRecord {
    ghost is_clone = { λ entry copy. copy ≡ entry };

    fn clone(&self) -> Result<AccessRecord, AllocError> {
        Ok(AccessRecord {
            node: self.node,
            moment: self.moment,
            caller: self.caller.clone()?,
            block: self.block,
            mode: self.mode,
            offset: self.offset,
            length: self.length,
            token: self.token.clone()?,
        })
    }
}

/// What a DataNode noted down of the calls that it let through, in their order.
pub struct AccessLog {
    records: Vec<AccessRecord>,
}

impl Drop for AccessLog {
    fn drop(self) {
        let AccessLog { records } = self;
        drop(records);
    }
}

impl Model for AccessLog {
    ghost use Rattle.std.specs.Prelude.{List};
    ghost use Rattle.call_parts.specs.declared.access_log.AccessRecord.{AccessRecord};

    ghost Value = { List AccessRecord };

    ghost view = { λ log. log.records.items };
}

impl AccessLog {
    /// Nothing is noted down. Takes no memory.
    pub fn new(alloc: Global) -> AccessLog
        ensures { result ≡ [] }
    {
        AccessLog {
            records: Vec::new(alloc),
        }
    }

    /// Notes down a call behind the others.
    ///
    /// # Errors
    /// Out of memory. Nothing has changed then.
    pub fn push(&mut self, entry: AccessRecord) -> Result<(), AllocError>
        ensures ok { OnOk result (self.new ≡ self.old ++ entry ∷ []) }
        ensures err { OnErr result (self.new ≡ self.old) }
    {
        self.records.push(entry)?;
        Ok(())
    }

    /// Takes back what was noted down last. Takes no memory.
    pub fn take_back(&mut self)
        ensures { self.new ≡ take (length self.old - 1) self.old }
    {
        self.records.pop();
    }

    /// The records in their order. Takes no memory.
    pub fn as_slice(&self) -> &[AccessRecord]
        ensures { result.now ≡ self.now }
    {
        &self.records
    }
}

impl Clone for AccessLog {
    ghost is_clone = { λ log copy. copy ≡ log };

    fn clone(&self) -> Result<AccessLog, AllocError> {
        Ok(AccessLog {
            records: self.records.clone()?,
        })
    }
}
