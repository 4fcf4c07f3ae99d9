ghost use Rattle.std.specs.Prelude.{◌≡◌, ◌+◌, ◌-◌, ℕ, [], List, if◌then◌else◌, OnOk, OnErr};
ghost use Rattle.hdfs_values.specs.Text.{same};
ghost use Rattle.lease_manager.specs.Writers.{count_of, CanCountOneMore};

use hdfs_values::who::Who;
use std::alloc::{AllocError, Global};
use std::collections::HashMap;
use std::marker::Model;

/// How many files each client has open. A call costs a look-up by hash.
#[derive(Drop)]
pub struct OpenFiles {
    counts: HashMap<Who, u64>,
}

impl Model for OpenFiles {
    ghost use Rattle.std.specs.Prelude.{List, ℕ};

    ghost Value = { List (List ℕ × ℕ) };

    ghost view = { λ files. files.counts.entries };
}

impl OpenFiles {
    /// No client has a file open. Takes no memory.
    pub fn new(alloc: Global) -> OpenFiles
        ensures { result ≡ [] }
    {
        OpenFiles {
            counts: HashMap::new(alloc),
        }
    }

    /// How many files a client has open. Takes no memory.
    pub fn count(&self, client: &Who) -> u64
        ensures { result ≡ count_of self.now client.now }
    {
        match self.counts.get(client) {
            Some(count) => *count,
            None => 0,
        }
    }

    /// Makes room for one more open file of a client, and changes no number.
    ///
    /// # Errors
    /// Out of memory, and where the number can't grow.
    pub fn make_room(&mut self, client: &Who) -> Result<(), AllocError>
        ensures counts { (other : List ℕ) → count_of self.new other ≡ count_of self.old other }
        ensures room { OnOk result (CanCountOneMore self.new client.now) }
    {
        if let Some(count) = self.counts.get(client) {
            if *count == u64::MAX {
                return Err(AllocError);
            }
            return Ok(());
        }
        self.counts.insert(client.clone()?, 0)?;
        Ok(())
    }

    /// Counts one more open file of a client, for which there is room. Takes no memory.
    pub fn add(&mut self, client: &Who)
        requires { CanCountOneMore self.old client.now }
        ensures { (other : List ℕ) → count_of self.new other ≡ (if same client.now other then count_of self.old client.now + 1 else count_of self.old other) }
    {
        if let Some(count) = self.counts.get_mut(client) {
            *count += 1;
        }
    }

    /// Counts one more open file of a client, whether there is room for it or not yet.
    ///
    /// # Errors
    /// Out of memory, and where the number can't grow. No number has changed then.
    pub fn add_making_room(&mut self, client: &Who) -> Result<(), AllocError>
        ensures ok { OnOk result ((other : List ℕ) → count_of self.new other ≡ (if same client.now other then count_of self.old client.now + 1 else count_of self.old other)) }
        ensures err { OnErr result ((other : List ℕ) → count_of self.new other ≡ count_of self.old other) }
    {
        if let Some(count) = self.counts.get_mut(client) {
            *count = count.checked_add(1).ok_or(AllocError)?;
            return Ok(());
        }
        self.counts.insert(client.clone()?, 1)?;
        Ok(())
    }

    /// Counts one open file of a client less, and tells how many are left. Takes no memory.
    pub fn take(&mut self, client: &Who) -> u64
        ensures left { result ≡ count_of self.new client.now }
        ensures counts { (other : List ℕ) → count_of self.new other ≡ (if same client.now other then count_of self.old client.now - 1 else count_of self.old other) }
    {
        self.take_some(client, 1)
    }

    /// Counts so many open files of a client less, and tells how many are left. Takes no memory.
    pub fn take_some(&mut self, client: &Who, number: u64) -> u64
        ensures left { result ≡ count_of self.new client.now }
        ensures counts { (other : List ℕ) → count_of self.new other ≡ (if same client.now other then count_of self.old client.now - number else count_of self.old other) }
    {
        let Some(count) = self.counts.get_mut(client) else {
            return 0;
        };
        *count = count.saturating_sub(number);
        *count
    }
}
