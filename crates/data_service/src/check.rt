ghost use Rattle.std.specs.Prelude.{◌≡◌, ◌-◌, ◌≤◌, ◌<◌, ◌⊎◌, Err, false, true, get_or, length, set, IfErr, IfNone, IfOk, IfSome, OnErr, OnOk, All, ℕ};
ghost use Rattle.std.specs.Bool.{Decides};
ghost use Rattle.data_service.specs.Found.{AreFound};
ghost use Rattle.data_service.specs.Logged.{AllLogged, IsLogged, Stands, receipts_of};
ghost use Rattle.data_service.specs.declared.check.LogFault.TheVariants.{OutOfMemory, Unlogged};

use crate::seat::{LogReceipt, Seat};
use call_parts::access_log::AccessRecord;
use call_parts::presented::PresentedToken;
use std::alloc::{AllocError, Global};
use thiserror::Error;

/// Why a log and what was kept of it aren't known to agree.
#[derive(Clone, Copy, Debug, PartialEq, Eq, Error)]
pub enum LogFault {
    /// The record of this number in the log, counted from 0, came since the opening and has no receipt, or several; or it is from before and isn't
    /// there any more; or a receipt has this number that isn't of that record, or whose record is from before the opening.
    #[error("record {number} isn't what was kept of it")]
    Unlogged { number: usize },
    #[error("out of memory")]
    OutOfMemory,
}

impl From<AllocError> for LogFault {
    ghost from_gives = { λ _ fault. fault ≡ OutOfMemory };

    fn from(_error: AllocError) -> LogFault {
        LogFault::OutOfMemory
    }
}

fn is_same_access(entry: &AccessRecord, other: &AccessRecord) -> bool
    ensures { Decides result ((entry.now.node ≡ other.now.node) × (entry.now.moment ≡ other.now.moment) × (entry.now.offset ≡ other.now.offset) × (entry.now.length ≡ other.now.length)) }
{
    entry.node == other.node
        && entry.moment == other.moment
        && entry.offset == other.offset
        && entry.length == other.length
}

fn is_same_token(token: &PresentedToken, other: &PresentedToken) -> bool
    ensures { Decides result (token.now ≡ other.now) }
{
    token.as_bytes() == other.as_bytes()
}

fn is_same_user(entry: &AccessRecord, other: &AccessRecord) -> bool
    ensures { Decides result ((entry.now.caller ≡ other.now.caller) × (entry.now.block ≡ other.now.block)) }
{
    entry.caller.as_str() == other.caller.as_str() && entry.block == other.block
}

fn is_same_leave(entry: &AccessRecord, other: &AccessRecord) -> bool
    ensures { Decides result ((entry.now.mode ≡ other.now.mode) × (entry.now.token ≡ other.now.token)) }
{
    entry.mode == other.mode && is_same_token(&entry.token, &other.token)
}

fn is_same(entry: &AccessRecord, other: &AccessRecord) -> bool
    ensures { Decides result (entry.now ≡ other.now) }
{
    is_same_access(entry, other) && is_same_user(entry, other) && is_same_leave(entry, other)
}

// Whether a receipt stands in the log since the opening.
fn stands(log: &[AccessRecord], log_start: usize, receipt: &LogReceipt) -> bool
    ensures { Decides result (Stands log.now log_start receipt.now) }
{
    match log.get(receipt.number) {
        Some(entry) => log_start <= receipt.number && is_same(entry, &receipt.entry),
        None => false,
    }
}

// Notes that the record of a receipt was found, or tells its number.
fn find(
    log: &[AccessRecord],
    log_start: usize,
    receipt: &LogReceipt,
    found: &mut [bool],
) -> Result<(), usize>
    requires { length found.old ≡ length log.now - log_start }
    ensures stands { OnOk result (Stands log.now log_start receipt.now) }
    ensures first { OnOk result (get_or found.old (receipt.now.number - log_start) false ≡ false) }
    ensures found { OnOk result (found.new ≡ set found.old (receipt.now.number - log_start) true) }
    ensures number { IfErr result (λ number. number ≡ receipt.now.number) }
    ensures err { OnErr result ((Stands log.now log_start receipt.now → ⊥) ⊎ (Stands log.now log_start receipt.now × (get_or found.old (receipt.now.number - log_start) false ≡ true))) }
{
    if !stands(log, log_start, receipt) {
        return Err(receipt.number);
    }
    let place = receipt.number - log_start;
    if found[place] {
        return Err(receipt.number);
    }
    found[place] = true;
    Ok(())
}

// Notes which records since the opening these receipts are of, or tells the number of one that isn't, or that is the second of its record.
fn find_all(
    log: &[AccessRecord],
    log_start: usize,
    receipts: &[LogReceipt],
    found: &mut [bool],
) -> Result<(), usize>
    requires len { length found.old ≡ length log.now - log_start }
    requires none { All (λ is_found. is_found ≡ false) found.old }
    ensures len { length found.new ≡ length found.old }
    ensures found { OnOk result (AreFound log.now log_start receipts.now found.new) }
    ensures err { IfErr result (λ number. IsLogged log.now log_start receipts.now number → ⊥) }
{
    for receipt in receipts {
        if let Err(number) = find(log, log_start, receipt, found) {
            return Err(number);
        }
    }
    Ok(())
}

// The first that is lacking.
fn first_lacking(found: &[bool]) -> Option<usize>
    ensures none { IfNone result (All (λ is_found. is_found ≡ true) found.now) }
    ensures some { IfSome result (λ place. (place < length found.now) × (get_or found.now place true ≡ false)) }
{
    found.iter().position(|is_found| !*is_found)
}

// Lays receipts beside a log, since the opening, or tells the number of one that isn't what was kept of it.
fn compare(
    log: &[AccessRecord],
    log_start: usize,
    receipts: &[LogReceipt],
    found: &mut [bool],
) -> Result<(), usize>
    requires len { length found.old ≡ length log.now - log_start }
    requires start { log_start ≤ length log.now }
    requires none { All (λ is_found. is_found ≡ false) found.old }
    ensures ok { OnOk result (AllLogged log.now log_start receipts.now) }
    ensures err { IfErr result (λ number. IsLogged log.now log_start receipts.now number → ⊥) }
{
    if let Err(number) = find_all(log, log_start, receipts, found) {
        return Err(number);
    }
    match first_lacking(found) {
        Some(place) => Err(log_start + place),
        None => Ok(()),
    }
}

// Lays receipts beside a log, since the opening.
fn check_receipts(
    alloc: Global,
    log: &[AccessRecord],
    log_start: usize,
    receipts: &[LogReceipt],
) -> Result<(), LogFault>
    ensures ok { OnOk result (AllLogged log.now log_start receipts.now) }
    ensures err { (number : ℕ) → result ≡ Err (Unlogged number) → IsLogged log.now log_start receipts.now number → ⊥ }
{
    if log.len() < log_start {
        return Err(LogFault::Unlogged { number: log.len() });
    }
    let mut found = vec![in alloc; false; log.len() - log_start]?;
    match compare(log, log_start, receipts, &mut found) {
        Ok(()) => Ok(()),
        Err(number) => Err(LogFault::Unlogged { number }),
    }
}

// All receipts, seat by seat.
fn gather(alloc: Global, seats: Vec<Seat>) -> Result<Vec<LogReceipt>, AllocError>
    ensures { IfOk result (λ receipts. receipts.items ≡ receipts_of seats.items) }
{
    let mut receipts = Vec::new(alloc);
    for seat in seats {
        receipts.append(&mut seat.into_receipts())?;
    }
    Ok(receipts)
}

// Lays what seats kept beside a log, since the opening. Costs the records and the receipts.
pub(crate) fn check_seats(
    alloc: Global,
    log: &[AccessRecord],
    log_start: usize,
    seats: Vec<Seat>,
) -> Result<(), LogFault>
    ensures ok { OnOk result (AllLogged log.now log_start (receipts_of seats.items)) }
    ensures err { (number : ℕ) → result ≡ Err (Unlogged number) → IsLogged log.now log_start (receipts_of seats.items) number → ⊥ }
{
    let receipts = gather(alloc, seats)?;
    let checked = check_receipts(alloc, log, log_start, &receipts);
    drop(receipts);
    checked
}
