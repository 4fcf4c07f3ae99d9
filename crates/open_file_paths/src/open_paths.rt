use crate::client_places::ClientPlaces;
use crate::moves::{Known, Moves};
use file_paths::path::Path;
use file_table::place::FilePlace;
use hdfs_values::ids::BlockId;
use hdfs_values::who::Who;
use std::alloc::{AllocError, Global};
use std::collections::{BTreeMap, HashMap};
use std::marker::Model;

/// So many moves of directories, at least, are kept before all paths are brought up to date. Where more blocks are noted, it is as many as these.
const LEAST_MOVES: usize = 1_024;

/// Which files each client has open, by their places in the tree, and where those files are whose last block is unfinished or recovered, by this
/// block: only these have to be known by their paths, in whose order recoveries begin. A call costs a look-up, if nothing else is said, and
/// what it takes to put a place in order or to take it out, where it is neither the oldest nor the newest of the client's.
///
/// A directory is moved without a look at the files beneath it: the move is noted, and a path is brought up to date once it is asked for.
///
/// These are hints, of which no contract speaks: the tree confirms each before it is used, and where one is missing, which is so
/// only where there was no memory for it, the tree is gone through instead.
#[derive(Drop)]
pub struct OpenPaths {
    clients: HashMap<Who, ClientPlaces>,
    blocks: BTreeMap<BlockId, Known>,
    moves: Moves,
    most_moves: usize,
    alloc: Global,
}

// Clauses see nothing of the hints.
impl Model for OpenPaths {
    ghost use Rattle.std.specs.Prelude.{⊤};

    ghost Value = { ⊤ };

    ghost view = { λ _. tt };
}

impl OpenPaths {
    /// No file is open. Takes no memory.
    pub fn new(alloc: Global) -> OpenPaths {
        OpenPaths {
            clients: HashMap::new(alloc),
            blocks: BTreeMap::new(alloc),
            moves: Moves::new(alloc),
            most_moves: LEAST_MOVES,
            alloc,
        }
    }

    /// The places of the files that a client has open, in ascending order. Costs these places at most, and takes no memory.
    pub fn places_of(&mut self, client: &Who) -> &[FilePlace] {
        match self.clients.get_mut(client) {
            Some(places) => places.as_slice(),
            None => &[],
        }
    }

    /// Notes that a client has opened the file at a place. Where there is no memory for it, it is left out.
    pub fn open(&mut self, client: &Who, place: Option<FilePlace>) {
        if let Some(place) = place {
            let _noted = self.put(client, place);
        }
    }

    fn put(&mut self, client: &Who, place: FilePlace) -> Result<(), AllocError> {
        if let Some(places) = self.clients.get_mut(client) {
            return places.insert(place);
        }
        let mut places = ClientPlaces::new(self.alloc);
        places.insert(place)?;
        self.clients.insert(client.clone()?, places)?;
        Ok(())
    }

    /// Notes that a client doesn't have the file at a place open any more. Takes no memory.
    pub fn close(&mut self, client: &Who, place: Option<FilePlace>) {
        if let Some(place) = place {
            self.take(client, place);
        }
    }

    fn take(&mut self, client: &Who, place: FilePlace) {
        let Some(places) = self.clients.get_mut(client) else {
            return;
        };
        places.remove(place);
        if places.is_empty() {
            self.clients.remove(client);
        }
    }

    /// Notes that a client has no file open any more. Costs its open files at most, and takes no memory.
    pub fn forget(&mut self, client: &Who) {
        self.clients.remove(client);
    }

    /// Where the file is whose last block is this one, and unfinished or recovered, if that is known: as the path was when it was last brought
    /// up to date.
    pub fn of_block(&self, block: BlockId) -> Option<&Path> {
        let known = self.blocks.get(&block)?;
        Some(&known.path)
    }

    /// Brings the path of the file whose last block this is up to date. Where there is no memory for it, it stays as it was.
    pub fn update_block(&mut self, block: BlockId) {
        if let Some(known) = self.blocks.get_mut(&block) {
            let _updated = self.moves.update(self.alloc, known);
        }
    }

    /// The same of all such files. Costs these files.
    pub fn update_blocks(&mut self) {
        for known in self.blocks.values_mut() {
            let _updated = self.moves.update(self.alloc, known);
        }
    }

    /// Notes that the file at a path ends with this block, which is unfinished or recovered. Where there is no memory for the note, it is left
    /// out.
    pub fn note_block(&mut self, path: &Path, block: BlockId) {
        let _noted = self.put_block(path, block);
    }

    fn put_block(&mut self, path: &Path, block: BlockId) -> Result<(), AllocError> {
        let path = path.clone()?;
        let since = self.moves.count();
        self.blocks.insert(block, Known { path, since })?;
        Ok(())
    }

    /// Notes the same, where that isn't known any more.
    pub fn keep_block(&mut self, path: &Path, block: BlockId) {
        self.update_block(block);
        if let Some(known) = self.of_block(block)
            && known == path
        {
            return;
        }
        self.note_block(path, block);
    }

    /// Notes that a block is neither unfinished nor recovered any more. Takes no memory.
    pub fn end_block(&mut self, block: BlockId) {
        self.blocks.remove(&block);
    }

    /// Notes that files are deleted with these blocks; these clients had some of them open, one for each of these places. Costs these files and
    /// blocks, and takes no memory.
    pub fn delete(&mut self, clients: &[Who], places: &[FilePlace], blocks: &[BlockId]) {
        for (client, place) in clients.iter().zip(places) {
            self.take(client, *place);
        }
        if !self.blocks.is_empty() {
            self.end_blocks(blocks);
        }
    }

    fn end_blocks(&mut self, blocks: &[BlockId]) {
        for block in blocks {
            self.blocks.remove(block);
        }
    }

    /// Notes that a directory is moved. Costs the two paths, and each block that is noted once in as many moves as there are of these, and
    /// in a thousand at least. Where there is no memory for the note, the paths of what is beneath stay as they were.
    pub fn move_directory(&mut self, from: &Path, to: &Path) {
        if self.blocks.is_empty() {
            self.moves.clear();
            return;
        }
        let _noted = self.moves.add(self.alloc, from, to);
        if self.moves.count() >= self.most_moves {
            self.forget_moves();
        }
    }

    // Brings all paths up to date, and forgets the moves.
    fn forget_moves(&mut self) {
        for known in self.blocks.values_mut() {
            let _updated = self.moves.update(self.alloc, known);
            known.since = 0;
        }
        self.moves.clear();
        self.most_moves = self.blocks.len().max(LEAST_MOVES);
    }
}
