ghost use Rattle.std.specs.Prelude.{◌≡◌, ◌++◌, [], ◌∷◌, List, IfOk, OnOk};
ghost use Rattle.hdfs_values.specs.Text.{same};
ghost use Rattle.token_provenance.specs.Provenance.{allows, lesser, place_of, least_place};
ghost use Rattle.token_provenance.specs.Index.{IsIndex, grants_the_same, repeats, repeats_first, listed_with};
ghost use Rattle.grant_ledger.specs.declared.ledger.LedgerRow.{LedgerRow};

use block_tokens::grant::Grant;
use call_parts::access_log::AccessRecord;
use grant_ledger::ledger::LedgerRow;
use std::alloc::{AllocError, Global};
use std::collections::BTreeMap;
use std::marker::Model;

/// Rows of a ledger that have one token, borrowed.
#[derive(Drop)]
struct TokenRows<'a> {
    rows: Vec<&'a LedgerRow>,
}

impl<'a> Model for TokenRows<'a> {
    ghost use Rattle.std.specs.Prelude.{List, map};
    ghost use Rattle.grant_ledger.specs.declared.ledger.LedgerRow.{LedgerRow};

    ghost Value = { List LedgerRow };

    ghost view = { λ group. map (λ row. row.now) group.rows.items };
}

fn lesser(least: Option<u64>, place: Option<u64>) -> Option<u64>
    ensures { result ≡ lesser least place }
{
    match (least, place) {
        (Some(least), Some(place)) => Some(least.min(place)),
        (None, place) => place,
        (least, None) => least,
    }
}

// Whether a grant lets the caller at the block, for what he did, when he did it.
fn allows(row: &LedgerRow, entry: &AccessRecord) -> bool
    ensures { result ≡ allows row.now entry.now }
{
    row.grant.user == entry.caller
        && row.grant.block == entry.block
        && row.grant.modes.covers(entry.mode)
        && entry.moment.milliseconds() < row.grant.expiry
}

// Whether two grants, whatever their tokens, let in the same.
fn grants_the_same(first: &Grant, other: &Grant) -> bool
    ensures { result ≡ grants_the_same first.now other.now }
{
    first.user == other.user
        && first.block == other.block
        && first.modes == other.modes
        && first.expiry == other.expiry
}

fn have_one_token(first: &LedgerRow, row: &LedgerRow) -> bool
    ensures { result ≡ same first.now.grant.token row.now.grant.token }
{
    first.grant.token.as_bytes() == row.grant.token.as_bytes()
}

// Whether a row says what the first one says, at no lesser place.
fn repeats(first: &LedgerRow, row: &LedgerRow) -> bool
    ensures { result ≡ repeats first.now row.now }
{
    first.place <= row.place
        && have_one_token(first, row)
        && grants_the_same(&first.grant, &row.grant)
}

fn is_token(row: &LedgerRow, entry: &AccessRecord) -> bool
    ensures { result ≡ same row.now.grant.token entry.now.token }
{
    row.grant.token.as_bytes() == entry.token.as_bytes()
}

// The place of a row where a record rests on it.
fn place_of(row: &LedgerRow, entry: &AccessRecord) -> Option<u64>
    ensures { result ≡ place_of row.now entry.now }
{
    if is_token(row, entry) && allows(row, entry) {
        return Some(row.place);
    }
    None
}

impl<'a> TokenRows<'a> {
    fn one(alloc: Global, row: &'a LedgerRow) -> Result<TokenRows<'a>, AllocError>
        ensures { IfOk result (λ rows. rows ≡ row.now ∷ []) }
    {
        let mut rows = Vec::new(alloc);
        rows.push(row)?;
        Ok(TokenRows { rows })
    }

    fn first_is_repeated(&self, row: &LedgerRow) -> bool
        ensures { result ≡ repeats_first self.now row.now }
    {
        match self.rows.first() {
            Some(first) => repeats(first, row),
            None => false,
        }
    }

    // Lists a row. One that says what the first says, at no lesser place, isn't kept: a caller may be granted the same token many times
    // in one millisecond, and each record that rests on it would go through all of these rows.
    fn add(&mut self, row: &'a LedgerRow) -> Result<(), AllocError>
        ensures { OnOk result (self.new ≡ listed_with self.old row.now) }
    {
        if self.first_is_repeated(row) {
            return Ok(());
        }
        self.rows.push(row)?;
        Ok(())
    }

    // The least place of those that fit.
    fn least_place(&self, entry: &AccessRecord) -> Option<u64>
        ensures { result ≡ least_place self.now entry.now }
    {
        let mut least = None;
        for row in &self.rows {
            least = lesser(least, place_of(row, entry));
        }
        least
    }
}

/// The rows of a ledger by their tokens.
#[derive(Drop)]
pub(crate) struct TokenIndex<'a> {
    tokens: BTreeMap<&'a [u8], TokenRows<'a>>,
    alloc: Global,
}

impl<'a> Model for TokenIndex<'a> {
    ghost use Rattle.token_provenance.specs.Index.{TokenIndex};

    ghost Value = { TokenIndex };

    ghost view = { λ index. index.tokens.entries };
}

impl<'a> TokenIndex<'a> {
    // Lists a row under its token. Costs a look-up.
    fn add(&mut self, row: &'a LedgerRow) -> Result<(), AllocError>
        ensures { OnOk result ((rows : List LedgerRow) → IsIndex self.old rows → IsIndex self.new (rows ++ row.now ∷ [])) }
    {
        let token = row.grant.token.as_bytes();
        if let Some(rows) = self.tokens.get_mut(token) {
            rows.add(row)?;
            return Ok(());
        }
        let rows = TokenRows::one(self.alloc, row)?;
        self.tokens.insert(token, rows)?;
        Ok(())
    }

    /// The index of these rows. Costs a look-up for each.
    ///
    /// # Errors
    /// Out of memory.
    pub(crate) fn of(alloc: Global, rows: &'a [LedgerRow]) -> Result<TokenIndex<'a>, AllocError>
        ensures { IfOk result (λ index. IsIndex index rows.now) }
    {
        let mut index = TokenIndex {
            tokens: BTreeMap::new(alloc),
            alloc,
        };
        for row in rows {
            index.add(row)?;
        }
        Ok(index)
    }

    /// The least place of the rows that a record rests on. Costs a look-up, and a step for each row that has its token and doesn't repeat
    /// the first of these: in the ledger of a NameNode there is one. Takes no memory.
    pub(crate) fn least_place(&self, entry: &AccessRecord) -> Option<u64>
        ensures { (rows : List LedgerRow) → IsIndex self.now rows → result ≡ least_place rows entry.now }
    {
        match self.tokens.get(entry.token.as_bytes()) {
            Some(rows) => rows.least_place(entry),
            None => None,
        }
    }
}
