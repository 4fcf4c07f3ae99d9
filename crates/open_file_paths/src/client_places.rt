use file_table::place::FilePlace;
use std::alloc::{AllocError, Global};
use std::collections::VecDeque;

/// The places of the files that one client has open, each once, in ascending order. A file gets a new place, or one that was free, so most often
/// it comes last; and one that is closed is most often the client's oldest or newest one: both are found without a search.
#[derive(Drop)]
pub(crate) struct ClientPlaces {
    places: VecDeque<FilePlace>,
}

impl ClientPlaces {
    pub(crate) fn new(alloc: Global) -> ClientPlaces {
        ClientPlaces {
            places: VecDeque::new(alloc),
        }
    }

    pub(crate) fn is_empty(&self) -> bool {
        self.places.is_empty()
    }

    /// Puts a place in. Where it isn't the last one, costs a search, and the places before or behind it.
    ///
    /// # Errors
    /// Out of memory.
    pub(crate) fn insert(&mut self, place: FilePlace) -> Result<(), AllocError> {
        match self.places.back() {
            Some(last) if *last >= place => self.insert_among(place),
            _ => Ok(self.places.push_back(place)?),
        }
    }

    fn insert_among(&mut self, place: FilePlace) -> Result<(), AllocError> {
        match self.places.binary_search(&place) {
            Ok(_) => Ok(()),
            Err(index) => Ok(self.places.insert(index, place)?),
        }
    }

    /// Takes a place out, if it is there. Where it is neither the first nor the last one, costs a search, and the places before or behind it.
    pub(crate) fn remove(&mut self, place: FilePlace) {
        if self.places.front() == Some(&place) {
            self.places.pop_front();
            return;
        }
        if self.places.back() == Some(&place) {
            self.places.pop_back();
            return;
        }
        if let Ok(index) = self.places.binary_search(&place) {
            self.places.remove(index);
        }
    }

    /// All of them. Costs them where they don't stand in one piece.
    pub(crate) fn as_slice(&mut self) -> &[FilePlace] {
        self.places.make_contiguous()
    }
}
