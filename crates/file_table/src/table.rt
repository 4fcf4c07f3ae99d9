ghost use Rattle.std.specs.Prelude.{◌≡◌, ℕ, None, Some, IfOk, OnOk, OnErr};
ghost use Rattle.std.specs.Option.{option_copied, option_map};
ghost use Rattle.slab.specs.Slab.{get, ContainsKey, HasRoomFor, Updates, SameValues};
ghost use Rattle.namespace_rows.specs.Files.{with_block};
ghost use Rattle.file_table.specs.Changed.{file_changed};
ghost use Rattle.file_table.specs.Finished.{is_finished_for, is_finished_of, closed_for};

use crate::place::FilePlace;
use file_states::state::FileState;
use hdfs_values::ids::BlockId;
use hdfs_values::who::Who;
use namespace_rows::file_row::FileRow;
use namespace_rows::row::Change;
use slab::Slab;
use std::alloc::{AllocError, Global};
use std::marker::Model;

/// What files have beside what directories have, each at a place that stays its own. A call costs no search.
#[derive(Drop)]
pub struct FileTable {
    files: Slab<FileRow>,
}

impl Model for FileTable {
    ghost use Rattle.slab.specs.Slab.{Slab};
    ghost use Rattle.namespace_rows.specs.declared.file_row.FileRow.{FileRow};

    ghost Value = { Slab FileRow };

    ghost view = { λ table. table.files };
}

impl FileTable {
    /// No file. Takes no memory.
    pub fn new(alloc: Global) -> FileTable
        ensures { (place : ℕ) → get result place ≡ None }
    {
        FileTable {
            files: Slab::new(alloc),
        }
    }

    /// The file at a place. Takes no memory.
    pub fn get(&self, place: FilePlace) -> Option<&FileRow>
        ensures { option_copied result ≡ get self.now place }
    {
        self.files.get(place.key())
    }

    /// Makes room for a file, and tells the place that it will get.
    ///
    /// # Errors
    /// Out of memory.
    pub fn make_room(&mut self) -> Result<FilePlace, AllocError>
        ensures same { SameValues self.old self.new }
        ensures room { OnOk result (HasRoomFor self.new 1) }
        ensures place { IfOk result (λ place. place ≡ self.new.vacant_key) }
        ensures vacant { IfOk result (λ place. get self.new place ≡ None) }
    {
        self.files.reserve(1)?;
        Ok(FilePlace::new(self.files.vacant_key()))
    }

    /// Puts a file in, for which there is room. Takes no memory.
    pub fn put(&mut self, file: FileRow)
        requires { HasRoomFor self.old 1 }
        ensures { Updates self.old self.new self.old.vacant_key (Some file) }
    {
        self.files.insert_reserved(file);
    }

    /// Takes out the file at a place. Takes no memory.
    pub fn remove(&mut self, place: FilePlace)
        ensures { Updates self.old self.new place None }
    {
        let _removed = self.files.try_remove(place.key());
    }

    /// Puts a file in the place of another. Takes no memory.
    pub fn replace(&mut self, place: FilePlace, file: FileRow)
        requires { ContainsKey self.old place }
        ensures { Updates self.old self.new place (Some file) }
    {
        match self.files.get_mut(place.key()) {
            Some(own) => *own = file,
            None => unreachable!(),
        }
    }

    /// Gives the file at a place what a change says; an owner, a group or a list isn't the file's own. Costs what `FileBlocks::commit` costs
    /// where the change commits a length; takes no memory.
    pub fn change(&mut self, place: FilePlace, change: Change)
        ensures { Updates self.old self.new place (option_map (file_changed change) (get self.old place)) }
    {
        if let Some(file) = self.files.get_mut(place.key()) {
            change_file(file, change);
        }
    }

    /// Closes the file at a place, where this client has it open and its last block isn't unfinished, and tells whether it did. Takes no memory.
    pub fn close_finished(&mut self, place: FilePlace, client: &Who) -> bool
        ensures told { result ≡ is_finished_of client.now (get self.old place) }
        ensures closed { Updates self.old self.new place (option_map (closed_for client.now) (get self.old place)) }
    {
        match self.files.get_mut(place.key()) {
            Some(file) => close_finished(file, client),
            None => false,
        }
    }

    /// Adds a block to the file at a place.
    ///
    /// # Errors
    /// Out of memory, and nothing has changed.
    pub fn push_block(&mut self, place: FilePlace, block: BlockId) -> Result<(), AllocError>
        ensures ok { OnOk result (Updates self.old self.new place (option_map (with_block block) (get self.old place))) }
        ensures err { OnErr result (SameValues self.old self.new) }
    {
        match self.files.get_mut(place.key()) {
            Some(file) => file.blocks.push(block),
            None => Ok(()),
        }
    }
}

/// Whether a client has a file open whose last block isn't unfinished.
pub fn is_finished(file: &FileRow, client: &Who) -> bool
    ensures { result ≡ is_finished_for client.now file.now }
{
    match &file.state {
        FileState::Open(holder) => client == holder && file.blocks.unfinished().is_none(),
        FileState::Closed => false,
        FileState::Recovering(_, _, _) => false,
    }
}

/// Closes such a file, and tells whether it did.
fn close_finished(file: &mut FileRow, client: &Who) -> bool
    ensures told { result ≡ is_finished_for client.now file.old }
    ensures closed { file.new ≡ closed_for client.now file.old }
{
    if !is_finished(file, client) {
        return false;
    }
    file.state = FileState::Closed;
    true
}

/// Gives a file what the change says.
fn change_file(file: &mut FileRow, change: Change)
    ensures { file.new ≡ file_changed change file.old }
{
    match change {
        Change::Owner(_, _) => (),
        Change::List(_) => (),
        Change::State(state) => file.state = state,
        Change::Replication(replication) => file.replication = replication,
        Change::Committed(block, bytes) => file.blocks.commit(block, bytes),
        Change::Completed(block, bytes) => file.complete(block, bytes),
        Change::LastTaken => file.blocks.pop(),
        Change::Recovered(block, bytes) => file.end_recovery(block, bytes),
    }
}
