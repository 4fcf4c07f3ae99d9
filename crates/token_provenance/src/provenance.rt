ghost use Rattle.std.specs.Prelude.{◌≡◌, ◌++◌, List, map, IfOk, OnOk};
ghost use Rattle.grant_ledger.specs.declared.ledger.LedgerRow.{LedgerRow};
ghost use Rattle.token_provenance.specs.Provenance.{source_at, source_of, records_of};
ghost use Rattle.token_provenance.specs.Index.{IsIndex};

use crate::index::TokenIndex;
use crate::logs::Logs;
use crate::source::Source;
use call_parts::access_log::AccessRecord;
use grant_ledger::ledger::Ledger;
use std::alloc::{AllocError, Global};

fn source_at(place: Option<u64>) -> Source
    ensures { result ≡ source_at place }
{
    match place {
        Some(place) => Source::Grant(place),
        None => Source::Forged,
    }
}

// Puts the sources of a log's records behind others.
fn add_sources(
    index: &TokenIndex<'_>,
    log: &[AccessRecord],
    sources: &mut Vec<Source>,
) -> Result<(), AllocError>
    ensures { OnOk result ((rows : List LedgerRow) → IsIndex index.now rows → sources.new.items ≡ sources.old.items ++ map (source_of rows) log.now) }
{
    for entry in log {
        sources.push(source_at(index.least_place(entry)))?;
    }
    Ok(())
}

/// For each record of these logs, in their order, the least place of a row of the ledger that it rests on, or that there is none: a row
/// with the bytes of the record's token, with its caller as user and its block, with modes that allow its mode, and with an expiry above
/// its moment. Costs a look-up by a token for each row and each record: in the ledger of a NameNode rows with one token say
/// the same, and one of them alone is listed.
///
/// # Errors
/// Out of memory.
pub fn provenance(alloc: Global, ledger: &Ledger, logs: &Logs) -> Result<Vec<Source>, AllocError>
    ensures { IfOk result (λ sources. sources.items ≡ map (source_of ledger.now.rows) (records_of logs.now)) }
{
    let index = TokenIndex::of(alloc, ledger.as_slice())?;
    let mut sources = Vec::new(alloc);
    for log in logs.as_slice() {
        add_sources(&index, log.as_slice(), &mut sources)?;
    }
    Ok(sources)
}
