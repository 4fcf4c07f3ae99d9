ghost use Rattle.std.specs.Prelude.{◌≡◌, ◌++◌, [], ◌∷◌, OnOk, OnErr};

use call_parts::access_log::AccessLog;
use std::alloc::{AllocError, Global};
use std::marker::Model;

/// Copies of the access logs of DataNodes.
pub struct Logs {
    logs: Vec<AccessLog>,
}

impl Drop for Logs {
    fn drop(self) {
        let Logs { logs } = self;
        drop(logs);
    }
}

impl Model for Logs {
    ghost use Rattle.std.specs.Prelude.{List};
    ghost use Rattle.call_parts.specs.declared.access_log.AccessRecord.{AccessRecord};

    ghost Value = { List (List AccessRecord) };

    ghost view = { λ logs. logs.logs.items };
}

impl Logs {
    /// No log. Takes no memory.
    pub fn new(alloc: Global) -> Logs
        ensures { result ≡ [] }
    {
        Logs {
            logs: Vec::new(alloc),
        }
    }

    /// Puts a log behind the others.
    ///
    /// # Errors
    /// Out of memory. The logs are as before then.
    pub fn push(&mut self, log: AccessLog) -> Result<(), AllocError>
        ensures ok { OnOk result (self.new ≡ self.old ++ log ∷ []) }
        ensures err { OnErr result (self.new ≡ self.old) }
    {
        self.logs.push(log)?;
        Ok(())
    }

    /// The logs in their order. Takes no memory.
    pub fn as_slice(&self) -> &[AccessLog]
        ensures { result.now ≡ self.now }
    {
        &self.logs
    }
}
