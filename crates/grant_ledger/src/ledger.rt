ghost use Rattle.std.specs.Prelude.{◌≡◌, ◌++◌, [], ◌∷◌, take, length, OnOk, OnErr};

use block_tokens::grant::Grant;
use std::alloc::{AllocError, Global};
use std::marker::Model;

/// A token that the NameNode granted, and the place of the entry of its history that granted it.
pub struct LedgerRow {
    /// Of the entry that granted it.
    pub place: u64,
    /// What the token grants, and the token.
    pub grant: Grant,
}

impl Drop for LedgerRow {
    fn drop(self) {
        let LedgerRow { place: _, grant } = self;
        drop(grant);
    }
}

/// The tokens that a NameNode ever granted, in the order in which it granted them (HADOOP-4359: the NameNode issues a block access
/// token for each block that a caller may access).
pub struct Ledger {
    rows: Vec<LedgerRow>,
}

impl Drop for Ledger {
    fn drop(self) {
        let Ledger { rows } = self;
        drop(rows);
    }
}

impl Model for Ledger {
    ghost use Rattle.grant_ledger.specs.Ledger.{Ledger};

    ghost Value = { Ledger };

    ghost view = { λ ledger. record { rows = ledger.rows.items } };
}

impl Ledger {
    /// Nothing was granted. Takes no memory.
    pub fn new(alloc: Global) -> Ledger
        ensures { result.rows ≡ [] }
    {
        Ledger {
            rows: Vec::new(alloc),
        }
    }

    /// Adds a row at the end.
    ///
    /// # Errors
    /// Out of memory. The rows are as before then.
    pub fn push(&mut self, row: LedgerRow) -> Result<(), AllocError>
        ensures ok { OnOk result (self.new.rows ≡ self.old.rows ++ row ∷ []) }
        ensures err { OnErr result (self.new.rows ≡ self.old.rows) }
    {
        self.rows.push(row)?;
        Ok(())
    }

    /// How many tokens were granted. Takes no memory.
    pub fn len(&self) -> usize
        ensures { result ≡ length self.now.rows }
    {
        self.rows.len()
    }

    /// Enters rows behind the others. Costs these rows, amortized.
    ///
    /// # Errors
    /// Out of memory. The rows are as before then.
    pub fn enter(&mut self, mut rows: Vec<LedgerRow>) -> Result<(), AllocError>
        ensures ok { OnOk result (self.new.rows ≡ self.old.rows ++ rows.items) }
        ensures err { OnErr result (self.new.rows ≡ self.old.rows) }
    {
        self.rows.append(&mut rows)?;
        Ok(())
    }

    /// Takes back all rows but the first so many. Takes no memory.
    pub fn take_back(&mut self, kept: usize)
        ensures { self.new.rows ≡ take kept self.old.rows }
    {
        self.rows.truncate(kept);
    }

    /// The rows in the order in which they were granted. Takes no memory.
    pub fn as_slice(&self) -> &[LedgerRow]
        ensures { result.now ≡ self.now.rows }
    {
        &self.rows
    }
}
