//! That the places of open files and the paths of blocks are known behind files that are opened, closed, moved and deleted, and directories that
//! are moved, all at random: as plain lists have them, of places and of texts, in each of which a move is made at once.

use file_paths::path::Path;
use file_table::place::FilePlace;
use hdfs_values::ids::BlockId;
use hdfs_values::who::Who;
use open_file_paths::open_paths::OpenPaths;
use std::alloc::Global;
use std::fmt::Write;
use std::test::Fail;

// The directories in which files are, and which are moved to one another.
const DIRECTORIES: [&str; 8] = ["/a", "/a/b", "/a/b/c", "/a/g", "/d", "/d/b", "/f", "/f/b/c"];

// How many blocks there are, and clients.
const BLOCKS: usize = 90;

const CLIENTS: usize = 2;

// How many things happen, and behind how many of them all paths and places are compared: often, and seldom, so that many moves are made of
// a path at once.
const STEPS: u32 = 9_000;

const OFTEN: u32 = 150;

const SELDOM: u32 = 1_500;

// Numbers that look random, and are the same in each run.
#[derive(Drop)]
struct Random {
    state: u64,
}

impl Random {
    // A number below a bound; zero where that is zero.
    fn below(&mut self, bound: usize) -> usize {
        self.state = self
            .state
            .wrapping_mul(6_364_136_223_846_793_005)
            .wrapping_add(1_442_695_040_888_963_407);
        ((self.state >> 33) as usize)
            .checked_rem(bound)
            .unwrap_or(0)
    }

    fn directory(&mut self) -> &'static str {
        let place = self.below(DIRECTORIES.len());
        DIRECTORIES.get(place).copied().unwrap_or("/z")
    }
}

// A client, and the places of the files that it has open, in ascending order.
#[derive(Drop)]
struct Client {
    who: Who,
    places: Vec<FilePlace>,
}

impl Client {
    fn parse(alloc: Global, name: &str) -> Result<Client, Fail> {
        Ok(Client {
            who: Who::parse(alloc, name)?,
            places: Vec::new(alloc),
        })
    }

    fn open(&mut self, place: FilePlace) -> Result<(), Fail> {
        if !self.places.contains(&place) {
            self.places.push(place)?;
            self.places.sort_unstable();
        }
        Ok(())
    }

    fn close(&mut self, place: FilePlace) {
        self.places.retain(|open| *open != place);
    }

    // The oldest, the newest or any of the places, where there is one.
    fn any_place(&self, random: &mut Random) -> Option<FilePlace> {
        match random.below(3) {
            0 => self.places.first().copied(),
            1 => self.places.last().copied(),
            _ => self.places.get(random.below(self.places.len())).copied(),
        }
    }
}

// The hints, and beside them the clients with their places, and of each block the text of its path, if it is noted. Then how many places and
// paths were new so far, by which they are named; and how often a path that had just been brought up to date was another than the list's.
#[derive(Drop)]
struct Files {
    paths: OpenPaths,
    clients: Vec<Client>,
    texts: Vec<Option<String>>,
    places: usize,
    named: u32,
    wrong: u32,
}

// Whether what has the text stands beneath a directory.
fn is_beneath(text: &str, directory: &str) -> bool {
    match text.strip_prefix(directory) {
        Some(rest) => rest.starts_with('/'),
        None => false,
    }
}

// What a path becomes where a directory is moved, if it is beneath that.
fn moved(alloc: Global, text: &str, from: &str, to: &str) -> Result<Option<String>, Fail> {
    let Some(rest) = text.strip_prefix(from) else {
        return Ok(None);
    };
    if !rest.starts_with('/') {
        return Ok(None);
    }
    let mut moved = String::new(alloc);
    write!(moved, "{to}{rest}")?;
    Ok(Some(moved))
}

// The block of this number.
fn block_of(number: usize) -> BlockId {
    BlockId::new(number as u64)
}

// Whether a path has this text.
fn has_text(alloc: Global, path: &Path, text: &str) -> Result<bool, Fail> {
    let mut told = String::new(alloc);
    write!(told, "{path}")?;
    Ok(told.as_str() == text)
}

// The texts of all blocks, where none is noted.
fn no_texts(alloc: Global) -> Result<Vec<Option<String>>, Fail> {
    let mut texts = Vec::new(alloc);
    for _ in 0..BLOCKS {
        texts.push(None)?;
    }
    Ok(texts)
}

impl Files {
    fn new(alloc: Global) -> Result<Files, Fail> {
        let mut clients = Vec::new(alloc);
        clients.push(Client::parse(alloc, "alice")?)?;
        clients.push(Client::parse(alloc, "bob")?)?;
        Ok(Files {
            paths: OpenPaths::new(alloc),
            clients,
            texts: no_texts(alloc)?,
            places: 0,
            named: 0,
            wrong: 0,
        })
    }

    // A path that no file had so far.
    fn fresh(&mut self, alloc: Global, directory: &str) -> Result<String, Fail> {
        self.named = self.named.saturating_add(1);
        let mut text = String::new(alloc);
        write!(text, "{directory}/f{}", self.named)?;
        Ok(text)
    }

    fn set(&mut self, number: usize, to: Option<String>) {
        if let Some(text) = self.texts.get_mut(number) {
            *text = to;
        }
    }

    // Whether the hints have the path of the list, or none where the list has none.
    fn is_known(&self, alloc: Global, number: usize) -> Result<bool, Fail> {
        match (
            self.paths.of_block(block_of(number)),
            self.texts.get(number),
        ) {
            (Some(path), Some(Some(text))) => has_text(alloc, path, text.as_str()),
            (None, Some(None)) => Ok(true),
            _ => Ok(false),
        }
    }

    fn compare(&mut self, alloc: Global, number: usize) -> Result<(), Fail> {
        if !self.is_known(alloc, number)? {
            self.wrong = self.wrong.saturating_add(1);
        }
        Ok(())
    }

    // Notes a block, or that its file was moved.
    fn note(&mut self, alloc: Global, random: &mut Random) -> Result<(), Fail> {
        let number = random.below(BLOCKS);
        let text = self.fresh(alloc, random.directory())?;
        self.paths
            .note_block(&Path::parse(alloc, text.as_str())?, block_of(number));
        self.set(number, Some(text));
        Ok(())
    }

    fn end(&mut self, random: &mut Random) {
        let number = random.below(BLOCKS);
        self.paths.end_block(block_of(number));
        self.set(number, None);
    }

    fn keep(&mut self, alloc: Global, random: &mut Random) -> Result<(), Fail> {
        let number = random.below(BLOCKS);
        if let Some(Some(text)) = self.texts.get(number) {
            self.paths
                .keep_block(&Path::parse(alloc, text.as_str())?, block_of(number));
        }
        self.compare(alloc, number)
    }

    fn keep_elsewhere(&mut self, alloc: Global, random: &mut Random) -> Result<(), Fail> {
        let number = random.below(BLOCKS);
        let text = self.fresh(alloc, random.directory())?;
        self.paths
            .keep_block(&Path::parse(alloc, text.as_str())?, block_of(number));
        self.set(number, Some(text));
        self.compare(alloc, number)
    }

    fn update(&mut self, alloc: Global, random: &mut Random) -> Result<(), Fail> {
        let number = random.below(BLOCKS);
        self.paths.update_block(block_of(number));
        self.compare(alloc, number)
    }

    fn move_texts(&mut self, alloc: Global, from: &str, to: &str) -> Result<(), Fail> {
        for noted in &mut self.texts {
            if let Some(text) = noted
                && let Some(moved) = moved(alloc, text.as_str(), from, to)?
            {
                *noted = Some(moved);
            }
        }
        Ok(())
    }

    fn move_directory(&mut self, alloc: Global, random: &mut Random) -> Result<(), Fail> {
        let (from, to) = (random.directory(), random.directory());
        if from == to || is_beneath(from, to) || is_beneath(to, from) {
            return Ok(());
        }
        self.paths
            .move_directory(&Path::parse(alloc, from)?, &Path::parse(alloc, to)?);
        self.move_texts(alloc, from, to)
    }

    // One of the newest forty places.
    fn recent_place(&self, random: &mut Random) -> FilePlace {
        FilePlace::new(self.places.saturating_sub(random.below(40)))
    }

    // A place that no file had so far, or a recent one, at which a file may be open.
    fn place_to_open(&mut self, random: &mut Random) -> FilePlace {
        if random.below(3) == 0 {
            return self.recent_place(random);
        }
        self.places = self.places.saturating_add(1);
        FilePlace::new(self.places)
    }

    fn open(&mut self, random: &mut Random) -> Result<(), Fail> {
        let place = self.place_to_open(random);
        if let Some(client) = self.clients.get_mut(random.below(CLIENTS)) {
            self.paths.open(&client.who, Some(place));
            client.open(place)?;
        }
        Ok(())
    }

    fn close(&mut self, random: &mut Random) {
        if let Some(client) = self.clients.get_mut(random.below(CLIENTS)) {
            if let Some(place) = client.any_place(random) {
                self.paths.close(&client.who, Some(place));
                client.close(place);
            }
        }
    }

    // Closes the file at a recent place, which the client may not have open.
    fn close_recent(&mut self, random: &mut Random) {
        let place = self.recent_place(random);
        if let Some(client) = self.clients.get_mut(random.below(CLIENTS)) {
            self.paths.close(&client.who, Some(place));
            client.close(place);
        }
    }

    fn forget(&mut self, random: &mut Random) {
        if let Some(client) = self.clients.get_mut(random.below(CLIENTS)) {
            self.paths.forget(&client.who);
            client.places.clear();
        }
    }

    // Takes what is beneath a directory from the list, and tells the blocks.
    fn take_beneath(&mut self, alloc: Global, directory: &str) -> Result<Vec<BlockId>, Fail> {
        let mut blocks = Vec::new(alloc);
        for (number, noted) in self.texts.iter_mut().enumerate() {
            if let Some(text) = noted
                && is_beneath(text.as_str(), directory)
            {
                *noted = None;
                blocks.push(block_of(number))?;
            }
        }
        Ok(blocks)
    }

    // Deletes the files beneath a directory by their blocks, and one that each client has open.
    fn delete(&mut self, alloc: Global, random: &mut Random) -> Result<(), Fail> {
        let blocks = self.take_beneath(alloc, random.directory())?;
        let (mut holders, mut places) = (Vec::new(alloc), Vec::new(alloc));
        for client in &mut self.clients {
            if let Some(place) = client.any_place(random) {
                holders.push(client.who.clone()?)?;
                places.push(place)?;
                client.close(place);
            }
        }
        self.paths.delete(&holders, &places, &blocks);
        Ok(())
    }

    // What happens to a block.
    fn step_block(&mut self, alloc: Global, random: &mut Random) -> Result<(), Fail> {
        match random.below(100) {
            0..50 => self.note(alloc, random),
            50..60 => Ok(self.end(random)),
            60..80 => self.keep(alloc, random),
            80..90 => self.keep_elsewhere(alloc, random),
            _ => self.update(alloc, random),
        }
    }

    // What happens to an open file.
    fn step_place(&mut self, random: &mut Random) -> Result<(), Fail> {
        match random.below(200) {
            0..100 => self.open(random),
            100..170 => Ok(self.close(random)),
            170..199 => Ok(self.close_recent(random)),
            _ => Ok(self.forget(random)),
        }
    }

    fn step(&mut self, alloc: Global, random: &mut Random) -> Result<(), Fail> {
        match random.below(100) {
            0..25 => self.step_block(alloc, random),
            25..63 => self.move_directory(alloc, random),
            63..99 => self.step_place(random),
            _ => self.delete(alloc, random),
        }
    }

    // Brings all paths up to date, and compares them with the list.
    fn compare_blocks(&mut self, alloc: Global) -> Result<(), Fail> {
        self.paths.update_blocks();
        for number in 0..BLOCKS {
            self.compare(alloc, number)?;
        }
        Ok(())
    }

    fn are_places_known(&mut self) -> bool {
        for client in &self.clients {
            if self.paths.places_of(&client.who) != client.places.as_slice() {
                return false;
            }
        }
        true
    }

    fn are_all_known(&mut self, alloc: Global) -> Result<bool, Fail> {
        self.compare_blocks(alloc)?;
        Ok(self.are_places_known() && self.wrong == 0)
    }
}

// Whether all paths and places were known, behind each so many of the things that happen.
fn are_known(alloc: Global, seed: u64, every: u32) -> Result<bool, Fail> {
    let mut random = Random { state: seed };
    let mut files = Files::new(alloc)?;
    for step in 1..=STEPS {
        files.step(alloc, &mut random)?;
        if step.checked_rem(every) == Some(0) && !files.are_all_known(alloc)? {
            return Ok(false);
        }
    }
    Ok(true)
}

#[test]
fn files_are_known_behind_random_moves(rt: HostRuntime) -> Result<(), Fail> {
    assert!(rt; are_known(rt.alloc(), 29, OFTEN)?);
    Ok(())
}

#[test]
fn files_are_known_behind_many_random_moves_at_once(rt: HostRuntime) -> Result<(), Fail> {
    assert!(rt; are_known(rt.alloc(), 31, SELDOM)?);
    Ok(())
}
