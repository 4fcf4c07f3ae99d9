ghost use Rattle.std.specs.Prelude.{◌≡◌, ◌≤◌, ◌<◌, ◌+◌, ◌-◌, ℕ, [], List, Option, if◌then◌else◌, filter, length, IfOk, OnOk, OnErr};
ghost use Rattle.hdfs_values.specs.Text.{same};
ghost use Rattle.lease_manager.specs.Leases as lease;
ghost use Rattle.lease_manager.specs.Writers.{count_of, IsLeased, IsAlike, renewed_at};

use crate::leases::Leases;
use crate::open_files::OpenFiles;
use hdfs_values::moment::Moment;
use hdfs_values::who::Who;
use std::alloc::{AllocError, Global};

/// The clients who have files open: how many, and the lease of each, which ends with its last open file (HDFS Architecture, the
/// single-writer model).
#[derive(Drop)]
pub struct Writers {
    pub leases: Leases,
    pub files: OpenFiles,
}

impl Writers {
    /// No client has a file open. The limits are in milliseconds.
    ///
    /// # Errors
    /// Out of memory.
    pub fn new(alloc: Global, soft: u32, hard: u32) -> Result<Writers, AllocError>
        ensures { IfOk result (λ writers. writers ≡ record { leases = record { limits = record { soft = soft; hard = hard }; renewals = [] }; files = [] }) }
    {
        Ok(Writers {
            leases: Leases::new(alloc, soft, hard)?,
            files: OpenFiles::new(alloc),
        })
    }

    /// Notes that a client has opened a file, which also renews its lease, or begins one.
    ///
    /// # Errors
    /// Out of memory, and nothing has changed.
    pub fn open(&mut self, client: &Who, now: Moment) -> Result<(), AllocError>
        requires { lease.latest_moment self.old.leases.renewals ≤ now }
        ensures files { OnOk result ((other : List ℕ) → count_of self.new.files other ≡ (if same client.now other then count_of self.old.files client.now + 1 else count_of self.old.files other)) }
        ensures leased { OnOk result ((last : List ℕ → Option ℕ) → IsLeased last self.old → IsLeased (renewed_at client.now now last) self.new) }
        ensures limits { self.new.leases.limits ≡ self.old.leases.limits }
        ensures latest { OnOk result (lease.latest_moment self.new.leases.renewals ≡ now) }
        ensures err { OnErr result (IsAlike self.old self.new) }
    {
        self.files.add_making_room(client)?;
        let Ok(()) = self.leases.take(client, now) else {
            self.files.take(client);
            return Err(AllocError);
        };
        Ok(())
    }

    /// Renews a client's lease, at the cost of `Leases::take`.
    ///
    /// # Errors
    /// Out of memory where the client has no lease, and nothing has changed.
    pub fn renew(&mut self, client: &Who, now: Moment) -> Result<(), AllocError>
        requires { lease.latest_moment self.old.leases.renewals ≤ now }
        ensures files { self.new.files ≡ self.old.files }
        ensures leased { OnOk result ((last : List ℕ → Option ℕ) → 0 < count_of self.old.files client.now → IsLeased last self.old → IsLeased (renewed_at client.now now last) self.new) }
        ensures limits { self.new.leases.limits ≡ self.old.leases.limits }
        ensures latest { OnOk result (lease.latest_moment self.new.leases.renewals ≡ now) }
        ensures err { OnErr result (self.new.leases ≡ self.old.leases) }
    {
        self.leases.take(client, now)?;
        Ok(())
    }

    /// Notes that a client has closed a file; its lease ends with its last. Takes no memory.
    pub fn close(&mut self, client: &Who)
        ensures files { (other : List ℕ) → count_of self.new.files other ≡ (if same client.now other then count_of self.old.files client.now - 1 else count_of self.old.files other) }
        ensures leased { (last : List ℕ → Option ℕ) → IsLeased last self.old → IsLeased last self.new }
        ensures limits { self.new.leases.limits ≡ self.old.leases.limits }
        ensures latest { lease.latest_moment self.new.leases.renewals ≤ lease.latest_moment self.old.leases.renewals }
    {
        self.close_some(client, 1);
    }

    /// Notes that a client has closed so many files; its lease ends with its last. Takes no memory.
    pub fn close_some(&mut self, client: &Who, number: u64)
        ensures files { (other : List ℕ) → count_of self.new.files other ≡ (if same client.now other then count_of self.old.files client.now - number else count_of self.old.files other) }
        ensures leased { (last : List ℕ → Option ℕ) → IsLeased last self.old → IsLeased last self.new }
        ensures limits { self.new.leases.limits ≡ self.old.leases.limits }
        ensures latest { lease.latest_moment self.new.leases.renewals ≤ lease.latest_moment self.old.leases.renewals }
    {
        if self.files.take_some(client, number) > 0 {
            return;
        }
        self.leases.release(client);
    }

    /// Notes that each of these clients has closed a file, one that is there more than once so many. Takes no memory.
    pub fn close_each(&mut self, clients: &[Who])
        ensures files { (other : List ℕ) → count_of self.new.files other ≡ count_of self.old.files other - length (filter (same other) clients.now) }
        ensures leased { (last : List ℕ → Option ℕ) → IsLeased last self.old → IsLeased last self.new }
        ensures limits { self.new.leases.limits ≡ self.old.leases.limits }
        ensures latest { lease.latest_moment self.new.leases.renewals ≤ lease.latest_moment self.old.leases.renewals }
    {
        for client in clients {
            self.close(client);
        }
    }
}
