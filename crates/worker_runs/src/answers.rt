//! What is printed of the answers that workers kept.

ghost use Rattle.std.specs.Prelude.{◌≡◌};
ghost use Rattle.worker_runs.specs.Tokens as spec;

use crate::jobs::Line;
use flat_rows::verdict::Verdict;
use hdfs_types::op::is_look;
use hdfs_types::reply::Reply;
use history::entry::Answer;
use name_service::jobs::KeptAt;
use name_service::sharing::{Worker, answer_at};
use script_text::answer::print_verdict;
use std::alloc::{AllocError, Global};

// How many tokens a reply hands out: to a writer for his new block, to a reader for each block that he is told of, and to a DataNode for each
// recovery that it is to lead and each replica that it is to copy.
fn tokens_told(reply: &Reply) -> usize
    ensures { result ≡ spec.tokens_told reply.now }
{
    match reply {
        Reply::Added(_) => 1,
        Reply::Opened(opened) => opened.blocks().len(),
        Reply::Commands(commands) => commands.recoveries().len() + commands.copies().len(),
        Reply::Empty => 0,
        Reply::Status(_) => 0,
        Reply::Acl(_) => 0,
        Reply::Names(_) => 0,
        Reply::Summary(_) => 0,
        Reply::Deleted(_) => 0,
        Reply::Released => 0,
        Reply::Recovering(_, _) => 0,
        Reply::Closed(_) => 0,
        Reply::Expired(_) => 0,
        Reply::Serial(_) => 0,
    }
}

// How many tokens a verdict hands out.
fn tokens_in(verdict: &Verdict) -> usize
    ensures { result ≡ spec.tokens_in verdict.now }
{
    match verdict {
        Verdict::Done(reply) => tokens_told(reply),
        Verdict::Denied(_) => 0,
        Verdict::Refused(_) => 0,
    }
}

// Notes for the place of each of these answers in the history how many tokens it handed out. A look has no place of its own there.
fn note_tokens(answers: &[Answer], tokens: &mut [usize]) {
    for answer in answers {
        if !is_look(&answer.request.op) {
            if let Some(count) = tokens.get_mut(answer.place as usize) {
                *count = tokens_in(&answer.verdict);
            }
        }
    }
}

// Puts the sum of those before it in the place of each number.
fn add_up(numbers: &mut [usize]) {
    let mut sum = 0usize;
    for number in numbers {
        let before = sum;
        sum = sum.saturating_add(*number);
        *number = before;
    }
}

// For each place in the history, how many tokens were handed out before: tokens are numbered by their rows in the ledger, where they stand in
// the order of the entries that granted them.
fn rows_before(alloc: Global, workers: &[Worker], jobs: usize) -> Result<Vec<usize>, AllocError> {
    let mut tokens = vec![in alloc; 0usize; jobs.saturating_add(1)]?;
    for worker in workers {
        note_tokens(worker.pass.receipts(), &mut tokens);
    }
    add_up(&mut tokens);
    Ok(tokens)
}

// Adds the answer to a line.
fn print_answer(
    number: usize,
    rows: &[usize],
    answer: &Answer,
    out: &mut String,
) -> Result<(), AllocError> {
    let before = rows.get(answer.place as usize).copied().unwrap_or(0);
    write!(out, "{number} ")?;
    print_verdict(before, &answer.verdict, out)?;
    out.push('\n')
}

// The answer to a job.
fn kept_at<'a>(workers: &'a [Worker], place: Option<&KeptAt>) -> Option<&'a Answer> {
    answer_at(workers, *place?)
}

// Adds the answers to these lines, whose jobs' answers the workers keep at these places, in the order of the lines.
pub(crate) fn print_answers(
    alloc: Global,
    lines: &[Line],
    workers: &[Worker],
    places: &[KeptAt],
    out: &mut String,
) -> Result<(), AllocError> {
    let rows = rows_before(alloc, workers, places.len())?;
    let mut next = 0usize;
    for line in lines {
        let number = line.number;
        if let Some(fault) = line.fault {
            writeln!(out, "{number} bad {fault}")?;
        } else if let Some(answer) = kept_at(workers, places.get(next)) {
            print_answer(number, &rows, answer, out)?;
            next = next.saturating_add(1);
        }
    }
    Ok(())
}
