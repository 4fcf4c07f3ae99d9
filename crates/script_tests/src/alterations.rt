//! Two callers who ask in turn, and keep their answers as the rules have it; and what is altered of that.

use crate::story::{Row, Rows, Told};
use std::alloc::{AllocError, Global};
use std::test::Fail;

/// What is done to a receipt or an entry.
#[derive(Clone, Copy, Debug)]
pub enum Change {
    /// It isn't there.
    Dropped,
    /// It and another one stand for one another.
    Exchanged(usize),
    /// It says that its request was done, without a reply.
    Done,
    /// It has another place.
    Moved(u64),
    /// It has another moment, by this line.
    Later(&'static str),
    /// It comes once more, behind itself.
    Repeated,
}

/// What is done to a story: to a receipt of a pass, to an entry or to an entry of the opening, told by the number of those before it.
#[derive(Clone, Copy, Debug)]
pub enum Altered {
    Receipt(u64, usize, Change),
    Entry(usize, Change),
    Opening(usize, Change),
}

// A request of a pass, with its place and its answer. A look makes no entry.
#[derive(Clone, Copy)]
enum Asked {
    Entry(u64, u64, &'static str, Told),
    Look(u64, u64, &'static str, Told),
}

// What was there before has the names of requests of the first caller.
static BEFORE: [Row; 2] = [
    Row {
        pass: 0,
        index: 0,
        place: 1,
        line: "0 hdfs mkdirs /d 777",
        told: Told::Done,
    },
    Row {
        pass: 0,
        index: 1,
        place: 2,
        line: "0 hdfs mkdirs /e 700",
        told: Told::Done,
    },
];

static PASSES: [Asked; 9] = [
    Asked::Entry(0, 3, "1 alice create /d/a 644 1", Told::Done),
    Asked::Look(1, 3, "1 bob du /d", Told::Counted(1, 1)),
    Asked::Entry(1, 4, "2 bob mkdirs /d/b 755", Told::Done),
    Asked::Look(0, 4, "3 alice du /d", Told::Counted(2, 1)),
    Asked::Entry(0, 5, "3 alice complete /d/a", Told::Closed),
    Asked::Look(1, 5, "3 bob stat /d/c", Told::NotFound),
    Asked::Entry(1, 6, "4 bob delete /d/a", Told::Deleted),
    Asked::Entry(0, 7, "5 alice append /d/a", Told::NotFound),
    Asked::Look(0, 7, "5 alice du /d", Told::Counted(2, 0)),
];

fn receipts_of(rows: &mut Rows, pass: u64) -> &mut Vec<Row> {
    if pass == 0 {
        return &mut rows.first;
    }
    &mut rows.second
}

// Adds the receipt of a request, and its entry.
fn add(rows: &mut Rows, asked: Asked) -> Result<(), AllocError> {
    let (pass, place, line, told, is_look) = match asked {
        Asked::Entry(pass, place, line, told) => (pass, place, line, told, false),
        Asked::Look(pass, place, line, told) => (pass, place, line, told, true),
    };
    let kept = receipts_of(rows, pass);
    let index = kept.len() as u64;
    let row = Row {
        pass,
        index,
        place,
        line,
        told,
    };
    kept.push(row)?;
    if !is_look {
        rows.history.push(row)?;
    }
    Ok(())
}

fn alter_row(rows: &mut Vec<Row>, index: usize, change: Change) -> Result<(), AllocError> {
    if index >= rows.len() {
        return Ok(());
    }
    match change {
        Change::Dropped => {
            rows.remove(index);
        }
        Change::Exchanged(other) => {
            if other < rows.len() {
                rows.swap(index, other);
            }
        }
        Change::Done => rows[index].told = Told::Done,
        Change::Moved(place) => rows[index].place = place,
        Change::Later(line) => rows[index].line = line,
        Change::Repeated => {
            let again = rows[index];
            rows.insert(index + 1, again)?;
        }
    }
    Ok(())
}

fn alter(rows: &mut Rows, altered: Altered) -> Result<(), AllocError> {
    match altered {
        Altered::Receipt(pass, index, change) => alter_row(receipts_of(rows, pass), index, change),
        Altered::Entry(index, change) => alter_row(&mut rows.history, index, change),
        Altered::Opening(index, change) => alter_row(&mut rows.opening, index, change),
    }
}

/// The rows of the two callers, with these alterations.
pub fn altered_rows(alloc: Global, altered: &[Altered]) -> Result<Rows, Fail> {
    let mut rows = Rows {
        opening: Vec::from_slice(alloc, &BEFORE)?,
        history: Vec::from_slice(alloc, &BEFORE)?,
        first: Vec::new(alloc),
        second: Vec::new(alloc),
    };
    for asked in &PASSES {
        add(&mut rows, *asked)?;
    }
    for one in altered {
        alter(&mut rows, *one)?;
    }
    Ok(rows)
}
