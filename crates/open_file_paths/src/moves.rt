use file_paths::name::Name;
use file_paths::path::Path;
use hdfs_values::fault::ParseFault;
use std::alloc::{AllocError, Global};
use std::collections::BTreeMap;

/// A path as it was behind so many moves of directories.
#[derive(Drop)]
pub(crate) struct Known {
    pub(crate) path: Path,
    pub(crate) since: usize,
}

// A directory that was moved.
#[derive(Drop)]
struct Move {
    to: Path,
}

// A path from which directories were moved, or the beginning of one.
#[derive(Drop)]
struct Origin {
    // the moves from this path, in their order
    moves: Vec<usize>,
    // the origins with one name more
    beneath: BTreeMap<Name, usize>,
}

/// The moves of directories in their order. A path that was noted before a move is brought up to date once it is asked for. The paths of
/// the directories before their moves stand in a tree by their names, so that the moves of a path are found without a look at the others.
#[derive(Drop)]
pub(crate) struct Moves {
    moves: Vec<Move>,
    // the first is the root
    origins: Vec<Origin>,
}

// The path of names with others before them, where it is within the limits.
fn joined(alloc: Global, front: &Path, behind: &[Name]) -> Result<Path, ParseFault> {
    let mut text = String::new(alloc);
    for name in front.names().iter().chain(behind) {
        text.push('/')?;
        text.push_str(name.as_str())?;
    }
    Path::parse(alloc, text.as_str())
}

/// What a path becomes whose first names, so many, are replaced; the same where that is beyond the limits.
///
/// # Errors
/// Out of memory.
fn with_front(alloc: Global, path: Path, depth: usize, front: &Path) -> Result<Path, AllocError> {
    let Some(behind) = path.names().get(depth..) else {
        return Ok(path);
    };
    match joined(alloc, front, behind) {
        Ok(moved) => Ok(moved),
        Err(ParseFault::OutOfMemory) => Err(AllocError),
        Err(_) => Ok(path),
    }
}

impl Origin {
    fn new(alloc: Global) -> Origin {
        Origin {
            moves: Vec::new(alloc),
            beneath: BTreeMap::new(alloc),
        }
    }
}

impl Moves {
    pub(crate) fn new(alloc: Global) -> Moves {
        Moves {
            moves: Vec::new(alloc),
            origins: Vec::new(alloc),
        }
    }

    pub(crate) fn count(&self) -> usize {
        self.moves.len()
    }

    pub(crate) fn clear(&mut self) {
        self.moves.clear();
        self.origins.clear();
    }

    // The origin with one name more.
    fn beneath(&self, origin: usize, name: &Name) -> Option<usize> {
        self.origins.get(origin)?.beneath.get(name).copied()
    }

    // The origin with one name more, put in where it is missing.
    fn put_beneath(
        &mut self,
        alloc: Global,
        origin: usize,
        name: &Name,
    ) -> Result<usize, AllocError> {
        if let Some(next) = self.beneath(origin, name) {
            return Ok(next);
        }
        let next = self.origins.len();
        self.origins.push(Origin::new(alloc))?;
        if let Some(origin) = self.origins.get_mut(origin) {
            origin.beneath.insert(name.clone()?, next)?;
        }
        Ok(next)
    }

    // The origin with this path, put in where it is missing.
    fn put_origin(&mut self, alloc: Global, path: &Path) -> Result<usize, AllocError> {
        if self.origins.is_empty() {
            self.origins.push(Origin::new(alloc))?;
        }
        let mut origin = 0;
        for name in path.names() {
            origin = self.put_beneath(alloc, origin, name)?;
        }
        Ok(origin)
    }

    /// Puts a move behind the others. Costs the two paths.
    ///
    /// # Errors
    /// Out of memory; paths may stay as they were before the move then.
    pub(crate) fn add(&mut self, alloc: Global, from: &Path, to: &Path) -> Result<(), AllocError> {
        let origin = self.put_origin(alloc, from)?;
        let place = self.moves.len();
        let to = to.clone()?;
        self.moves.push(Move { to })?;
        if let Some(origin) = self.origins.get_mut(origin) {
            origin.moves.push(place)?;
        }
        Ok(())
    }

    // The first move from an origin that is none of the first ones, so many.
    fn first_from(&self, origin: usize, since: usize) -> Option<usize> {
        let moves = &self.origins.get(origin)?.moves;
        let earlier = moves.partition_point(|place| *place < since);
        moves.get(earlier).copied()
    }

    // The first move of the path of these names that is none of the first ones, so many, and how many of the names it replaces. Costs a
    // look-up for each name, up to the first with which no origin goes on.
    fn next_of(&self, front: &[Name], behind: &[Name], since: usize) -> Option<(usize, usize)> {
        let mut next = None;
        let mut origin = 0;
        for (above, name) in front.iter().chain(behind).enumerate() {
            let Some(beneath) = self.beneath(origin, name) else {
                break;
            };
            origin = beneath;
            if let Some(place) = self.first_from(origin, since) {
                next = match next {
                    Some((earlier, depth)) if earlier < place => Some((earlier, depth)),
                    _ => Some((place, above + 1)),
                };
            }
        }
        next
    }

    /// Whether a path that was so behind so many moves was moved since.
    fn is_moved(&self, path: &Path, since: usize) -> bool {
        self.next_of(&[], path.names(), since).is_some()
    }

    // The next move of a path behind one that replaced so many of its names, and how many of these both replace; none where that move is of
    // a directory above the one to which the former moved it.
    fn next_behind(&self, path: &Path, place: usize, depth: usize) -> Option<(usize, usize)> {
        let to = self.moves.get(place)?.to.names();
        let behind = path.names().get(depth..)?;
        let (later, replaced) = self.next_of(to, behind, place.saturating_add(1))?;
        let more = replaced.checked_sub(to.len())?;
        Some((later, depth.saturating_add(more)))
    }

    // As `next_of` does of a path, but the last of the moves that can be made at once, since each replaces what the one before put in.
    fn last_of(&self, path: &Path, since: usize) -> Option<(usize, usize)> {
        let mut last = self.next_of(&[], path.names(), since)?;
        for _ in since..self.moves.len() {
            let Some(later) = self.next_behind(path, last.0, last.1) else {
                break;
            };
            last = later;
        }
        Some(last)
    }

    // What a path becomes by a move that replaces so many of its names.
    fn moved(
        &self,
        alloc: Global,
        path: Path,
        place: usize,
        depth: usize,
    ) -> Result<Path, AllocError> {
        match self.moves.get(place) {
            Some(moved) => with_front(alloc, path, depth, &moved.to),
            None => Ok(path),
        }
    }

    /// What a path has become that was so behind so many moves. Costs a look-up for each name, as often as the path was moved since.
    ///
    /// # Errors
    /// Out of memory.
    pub(crate) fn now(
        &self,
        alloc: Global,
        mut path: Path,
        mut since: usize,
    ) -> Result<Path, AllocError> {
        for _ in since..self.moves.len() {
            let Some((place, depth)) = self.last_of(&path, since) else {
                break;
            };
            path = self.moved(alloc, path, place, depth)?;
            since = place.saturating_add(1);
        }
        Ok(path)
    }

    /// Brings a path up to date.
    ///
    /// # Errors
    /// Out of memory; the path stays as it was then.
    pub(crate) fn update(&self, alloc: Global, known: &mut Known) -> Result<(), AllocError> {
        if known.since == self.moves.len() {
            return Ok(());
        }
        if self.is_moved(&known.path, known.since) {
            known.path = self.now(alloc, known.path.clone()?, known.since)?;
        }
        known.since = self.moves.len();
        Ok(())
    }
}
