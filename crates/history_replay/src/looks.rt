ghost use Rattle.std.specs.Prelude.{◌≡◌, ◌+◌, ◌<◌, ◌++◌, [], ◌∷◌, true, length, slice_index_or, IfOk, OnOk};
ghost use Rattle.hdfs_types.specs.Request.{is_look};
ghost use Rattle.history_replay.specs.Looking.{lists, HasLooks, HasAllLooks, KeepsLooks};

use crate::pair::Pair;
use crate::receipts::Receipts;
use hdfs_types::op::is_look;
use history::entry::Answer;
use std::alloc::{AllocError, Global};
use std::marker::Model;

#[derive(Drop)]
struct Pairs {
    pairs: Vec<Pair>,
}

impl Model for Pairs {
    ghost use Rattle.std.specs.Prelude.{List};
    ghost use Rattle.history_replay.specs.declared.pair.Pair.{Pair};

    ghost Value = { List Pair };

    ghost view = { λ pairs. pairs.pairs.items };
}

impl Pairs {
    fn new(alloc: Global) -> Pairs
        ensures { result ≡ [] }
    {
        Pairs {
            pairs: Vec::new(alloc),
        }
    }

    fn push(&mut self, pair: Pair) -> Result<(), AllocError>
        ensures { OnOk result (self.new ≡ self.old ++ pair ∷ []) }
    {
        self.pairs.push(pair)?;
        Ok(())
    }

    fn as_slice(&self) -> &[Pair]
        ensures { result.now ≡ self.now }
    {
        &self.pairs
    }
}

/// For each number of entries the looks that rest on so many.
pub struct Looks {
    places: Vec<Pairs>,
}

impl Drop for Looks {
    fn drop(self) {
        let Looks { places } = self;
        drop(places);
    }
}

impl Model for Looks {
    ghost use Rattle.std.specs.Prelude.{List};
    ghost use Rattle.history_replay.specs.declared.pair.Pair.{Pair};

    ghost Value = { List (List Pair) };

    ghost view = { λ looks. looks.places.items };
}

impl Looks {
    // No looks, for so many numbers.
    fn none(alloc: Global, count: usize) -> Result<Looks, AllocError>
        ensures { IfOk result (λ looks. length looks ≡ count) }
    {
        let mut places = Vec::new(alloc);
        for _place in 0..count {
            places.push(Pairs::new(alloc))?;
        }
        Ok(Looks { places })
    }

    // Adds a look.
    fn add(&mut self, place: usize, pair: Pair) -> Result<(), AllocError>
        requires { place < length self.old }
        ensures len { OnOk result (length self.new ≡ length self.old) }
        ensures listed { OnOk result (lists self.new place pair.pass pair.index ≡ true) }
        ensures kept { OnOk result (KeepsLooks self.old self.new) }
    {
        self.places[place].push(pair)?;
        Ok(())
    }

    // Adds a receipt, if it is of a look that rests on a place of the list.
    fn add_receipt(&mut self, pair: Pair, answer: &Answer) -> Result<(), AllocError>
        ensures len { OnOk result (length self.new ≡ length self.old) }
        ensures listed { OnOk result (is_look answer.now.request.op ≡ true → answer.now.place < length self.old → lists self.new answer.now.place pair.pass pair.index ≡ true) }
        ensures kept { OnOk result (KeepsLooks self.old self.new) }
    {
        let place = answer.place as usize;
        if !is_look(&answer.request.op) || place >= self.places.len() {
            return Ok(());
        }
        self.add(place, pair)
    }

    // Adds the looks of a pass that rest on a place of the list.
    fn add_pass(&mut self, pass: u64, answers: &[Answer]) -> Result<(), AllocError>
        ensures len { OnOk result (length self.new ≡ length self.old) }
        ensures listed { OnOk result (HasLooks self.new pass answers.now) }
        ensures kept { OnOk result (KeepsLooks self.old self.new) }
    {
        for i in 0..answers.len() {
            let pair = Pair {
                pass,
                index: i as u64,
            };
            self.add_receipt(pair, &answers[i])?;
        }
        Ok(())
    }

    /// The looks of these passes that rest on at most so many entries. Costs the entries and the receipts.
    ///
    /// # Errors
    /// Out of memory.
    pub fn of(alloc: Global, entries: usize, passes: &[Receipts]) -> Result<Looks, AllocError>
        ensures len { IfOk result (λ looks. length looks ≡ entries + 1) }
        ensures looks { IfOk result (λ looks. HasAllLooks looks passes.now) }
    {
        let Some(count) = entries.checked_add(1) else {
            return Err(AllocError);
        };
        let mut looks = Looks::none(alloc, count)?;
        for i in 0..passes.len() {
            looks.add_pass(i as u64, passes[i].as_slice())?;
        }
        Ok(looks)
    }

    /// The looks that rest on so many entries. Takes no memory.
    pub fn at(&self, place: usize) -> &[Pair]
        requires { place < length self.now }
        ensures { result.now ≡ slice_index_or self.now place [] }
    {
        self.places[place].as_slice()
    }
}
