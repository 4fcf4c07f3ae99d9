ghost use Rattle.std.specs.Prelude.{◌≡◌, option_copied};
ghost use Rattle.std.specs.Option.{option_map};
ghost use Rattle.grant_ledger.specs.declared.ledger.LedgerRow.{LedgerRow};
ghost use Rattle.script_words.specs.LineForms.{Forms};
ghost use Rattle.cluster_text.specs.Words as spec;

use crate::node_words::behind;
use call_parts::presented::PresentedToken;
use grant_ledger::ledger::LedgerRow;
use hdfs_values::fault::{IllFormed, ParseFault};
use hdfs_values::number::number_of;

/// The row of the ledger with a number; the first has the number 1.
fn row_at(ledger: &[LedgerRow], number: u64) -> Option<&LedgerRow>
    ensures { option_map (λ (row : LedgerRow). row.grant.token) (option_copied result) ≡ spec.token_at ledger.now number }
{
    if number == 0 {
        return None;
    }
    ledger.get((number - 1) as usize)
}

fn row_of<'a>(ledger: &'a [LedgerRow], word: &str) -> Option<&'a LedgerRow>
    ensures { option_map (λ (row : LedgerRow). row.grant.token) (option_copied result) ≡ spec.token_of ledger.now word.now }
{
    let number = number_of(behind(word, '#')?)?;
    row_at(ledger, number)
}

/// Reads a token that was granted: `#` and the number of its row in the ledger, counted from 1. Its bytes are shared. Costs no search.
///
/// # Errors
/// `BadLine` where the ledger has no such row, or out of memory.
pub fn token_word(ledger: &[LedgerRow], word: &str) -> Result<PresentedToken, ParseFault>
    ensures { Forms result (spec.token_word ledger.now word.now) }
{
    match row_of(ledger, word) {
        Some(row) => Ok(PresentedToken::granted(&row.grant.token)?),
        None => Err(ParseFault::IllFormed(IllFormed::BadLine)),
    }
}
