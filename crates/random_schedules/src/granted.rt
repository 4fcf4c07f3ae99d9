use bitflags::Flags;
use call_parts::access_log::AccessRecord;
use grant_ledger::ledger::LedgerRow;

// Whether a grant lets the caller of a record do what he did.
fn lets(row: &LedgerRow, record: &AccessRecord) -> bool {
    let grant = &row.grant;
    let asked = record.mode.bits();
    grant.token.as_bytes() == record.token.as_bytes()
        && grant.user.as_str() == record.caller.as_str()
        && grant.block.get() == record.block.get()
        && grant.modes.bits() & asked == asked
        && record.moment.milliseconds() < grant.expiry
}

fn is_granted(rows: &[LedgerRow], record: &AccessRecord) -> bool {
    for row in rows {
        if lets(row, record) {
            return true;
        }
    }
    false
}

/// Whether each of these records rests on one of these grants. Costs each with each.
pub fn are_granted(rows: &[LedgerRow], records: &[AccessRecord]) -> bool {
    for record in records {
        if !is_granted(rows, record) {
            return false;
        }
    }
    true
}
