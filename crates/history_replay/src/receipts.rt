ghost use Rattle.std.specs.Prelude.{◌≡◌};
ghost use Rattle.std.specs.Option.{option_copied};
ghost use Rattle.history_replay.specs.Agreement.{receipt_of};

use history::entry::Answer;
use std::marker::Model;

/// The answers that a pass kept, in their order.
pub struct Receipts {
    answers: Vec<Answer>,
}

impl Drop for Receipts {
    fn drop(self) {
        let Receipts { answers } = self;
        drop(answers);
    }
}

impl Model for Receipts {
    ghost use Rattle.std.specs.Prelude.{List};
    ghost use Rattle.history.specs.declared.entry.Answer.{Answer};

    ghost Value = { List Answer };

    ghost view = { λ receipts. receipts.answers.items };
}

impl Receipts {
    /// These answers. Takes no memory.
    pub fn new(answers: Vec<Answer>) -> Receipts
        ensures { result ≡ answers.items }
    {
        Receipts { answers }
    }

    /// The answers in their order. Takes no memory.
    pub fn as_slice(&self) -> &[Answer]
        ensures { result.now ≡ self.now }
    {
        &self.answers
    }
}

/// The receipt of a pass with so many before it, where there is one. Takes no memory.
pub fn receipt_of(passes: &[Receipts], pass: u64, index: u64) -> Option<&Answer>
    ensures { option_copied result ≡ receipt_of passes.now pass index }
{
    match passes.get(pass as usize) {
        Some(receipts) => receipts.as_slice().get(index as usize),
        None => None,
    }
}
