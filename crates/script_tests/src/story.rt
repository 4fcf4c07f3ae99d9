//! What a NameNode has, and what two callers of it kept.

use audit_check::check::{CheckFault, Opening, check};
use flat_rows::verdict::Verdict;
use hdfs_types::key::Key;
use hdfs_types::reply::{ContentSummary, Refusal, Reply};
use history::config::Config;
use history::entry::{Answer, HistoryEntry};
use history_replay::receipts::Receipts;
use script_text::line::read_line;
use std::alloc::Global;
use std::test::Fail;

/// What a NameNode has, and what two callers of it kept.
#[derive(Drop)]
pub struct Story {
    pub opening: Opening,
    pub history: Vec<HistoryEntry>,
    pub first: Vec<Answer>,
    pub second: Vec<Answer>,
}

/// What is answered.
#[derive(Clone, Copy)]
pub enum Told {
    Done,
    Closed,
    Deleted,
    NotFound,
    /// How many directories and files there are; no file holds a byte.
    Counted(u64, u64),
}

/// A request by its line, and its answer: a receipt of a pass, or an entry.
#[derive(Clone, Copy)]
pub struct Row {
    pub pass: u64,
    pub index: u64,
    pub place: u64,
    pub line: &'static str,
    pub told: Told,
}

/// The entries of the opening and of the history, and the receipts of the passes, by their rows.
#[derive(Drop)]
pub struct Rows {
    pub opening: Vec<Row>,
    pub history: Vec<Row>,
    pub first: Vec<Row>,
    pub second: Vec<Row>,
}

fn verdict_of(told: Told) -> Verdict {
    match told {
        Told::Done => Verdict::Done(Reply::Empty),
        Told::Closed => Verdict::Done(Reply::Closed(0)),
        Told::Deleted => Verdict::Done(Reply::Deleted(1)),
        Told::NotFound => Verdict::Refused(Refusal::NotFound),
        Told::Counted(directories, files) => Verdict::Done(Reply::Summary(ContentSummary {
            directories,
            files,
            bytes: 0,
        })),
    }
}

fn add_entry(alloc: Global, entries: &mut Vec<HistoryEntry>, row: &Row) -> Result<(), Fail> {
    let Ok(request) = read_line(alloc, row.line)? else {
        return Err("no request".into());
    };
    entries.push(HistoryEntry {
        place: row.place,
        pass: row.pass,
        index: row.index,
        request,
        verdict: verdict_of(row.told),
    })?;
    Ok(())
}

fn add_answer(alloc: Global, answers: &mut Vec<Answer>, row: &Row) -> Result<(), Fail> {
    let Ok(request) = read_line(alloc, row.line)? else {
        return Err("no request".into());
    };
    answers.push(Answer {
        place: row.place,
        request,
        verdict: verdict_of(row.told),
    })?;
    Ok(())
}

/// Adds what the rows say.
pub fn tell(alloc: Global, story: &mut Story, rows: &Rows) -> Result<(), Fail> {
    for row in &rows.opening {
        add_entry(alloc, &mut story.opening.entries, row)?;
    }
    for row in &rows.history {
        add_entry(alloc, &mut story.history, row)?;
    }
    for row in &rows.first {
        add_answer(alloc, &mut story.first, row)?;
    }
    for row in &rows.second {
        add_answer(alloc, &mut story.second, row)?;
    }
    Ok(())
}

/// Nothing was asked.
pub fn empty(alloc: Global) -> Story {
    Story {
        opening: Opening {
            config: Config::standard(),
            first_key: Key::new([1; 20]),
            entries: Vec::new(alloc),
        },
        history: Vec::new(alloc),
        first: Vec::new(alloc),
        second: Vec::new(alloc),
    }
}

/// What the check answers.
pub fn judge(alloc: Global, story: Story) -> Result<(), CheckFault> {
    let Story {
        opening,
        history,
        first,
        second,
    } = story;
    let passes = [Receipts::new(first), Receipts::new(second)];
    let answer = check(alloc, &opening, &history, &passes);
    drop(passes);
    drop(history);
    drop(opening);
    answer
}
