ghost use Rattle.std.specs.Prelude.{◌≡◌, ◌++◌, OnOk, OnErr, codes, option_copied};
ghost use Rattle.std.specs.String.{string_bytes};
ghost use Rattle.cluster_trace.specs.Refusals.{cluster_refusal_text};
ghost use Rattle.cluster_text.specs.ToldText as spec;

use crate::node_reply::print_called;
use crate::plan_reply::print_led;
use cluster_trace::outcome::{ClusterRefusal, EventAnswer, Outcome};
use flat_rows::verdict::Verdict;
use hdfs_values::fault::IllFormed;
use itoa::Buffer;
use script_text::answer::print_verdict;
use script_text::numbers::push_number;
use std::alloc::AllocError;

/// Adds the verdict on a request, where the ledger had so many rows before.
fn print_ruled(rows: usize, newest: Option<&Verdict>, line: &mut String) -> Result<(), AllocError>
    ensures { OnOk result (string_bytes line.new ≡ string_bytes line.old ++ spec.ruled_text rows (option_copied newest.entry)) }
{
    let Some(verdict) = newest else {
        return Ok(());
    };
    print_verdict(rows, verdict, line)
}

fn print_lost(refusal: ClusterRefusal, line: &mut String) -> Result<(), AllocError>
    ensures { OnOk result (string_bytes line.new ≡ string_bytes line.old ++ (codes "refused " ++ cluster_refusal_text refusal)) }
{
    write!(line, "refused {refusal}")?;
    Ok(())
}

fn print_event_answer(
    rows: usize,
    newest: Option<&Verdict>,
    answer: &EventAnswer,
    line: &mut String,
) -> Result<(), AllocError>
    ensures { OnOk result (string_bytes line.new ≡ string_bytes line.old ++ spec.event_answer_text rows (option_copied newest.entry) answer.now) }
{
    match answer {
        EventAnswer::Named(_) => print_ruled(rows, newest, line),
        EventAnswer::Called(called) => print_called(called, line),
        EventAnswer::Led(led) => print_led(led, line),
        EventAnswer::Lost(lost) => print_lost(lost.get(), line),
    }
}

/// Adds the numbers of the first and the last message that were sent, if any was. They are exact for any numbers, also where the last
/// would pass the greatest `u64`.
fn print_sent(first: u64, count: u64, line: &mut String) -> Result<(), AllocError>
    ensures { OnOk result (string_bytes line.new ≡ string_bytes line.old ++ spec.sent_text first count) }
{
    if count == 0 {
        return Ok(());
    }
    let last = u128::from(first) + u128::from(count - 1);
    line.push_str(" sent ")?;
    push_number(first, line)?;
    line.push('-')?;
    line.push_str(Buffer::new().format(last))
}

/// Adds what comes of an event behind so many rows of the ledger, where this is the verdict of the newest entry behind it.
fn print_outcome(
    rows: usize,
    newest: Option<&Verdict>,
    outcome: &Outcome,
    line: &mut String,
) -> Result<(), AllocError>
    ensures { OnOk result (string_bytes line.new ≡ string_bytes line.old ++ spec.told_text (record { outcome = outcome.now; rows = rows; newest = option_copied newest.entry })) }
{
    print_event_answer(rows, newest, &outcome.answer, line)?;
    print_sent(outcome.first, outcome.count, line)
}

/// Adds the answer to a line whose event came to this, behind the line's number. It is formatted in a `line` that is used again, so that
/// what is printed so far stays as it was where memory runs out.
///
/// # Errors
/// Out of memory. The output is as before then.
pub fn print_told(
    number: usize,
    rows: usize,
    newest: Option<&Verdict>,
    outcome: &Outcome,
    line: &mut String,
    out: &mut String,
) -> Result<(), AllocError>
    ensures ok { OnOk result (string_bytes out.new ≡ string_bytes out.old ++ spec.answer_line number (Ok (record { outcome = outcome.now; rows = rows; newest = option_copied newest.entry }))) }
    ensures err { OnErr result (string_bytes out.new ≡ string_bytes out.old) }
{
    line.clear();
    push_number(number as u64, line)?;
    line.push(' ')?;
    print_outcome(rows, newest, outcome, line)?;
    line.push('\n')?;
    out.push_str(line.as_str())
}

/// Adds the answer to an ill-formed line behind the line's number.
///
/// # Errors
/// Out of memory. The output is as before then.
pub fn print_bad(
    number: usize,
    fault: IllFormed,
    line: &mut String,
    out: &mut String,
) -> Result<(), AllocError>
    ensures ok { OnOk result (string_bytes out.new ≡ string_bytes out.old ++ spec.answer_line number (Err fault)) }
    ensures err { OnErr result (string_bytes out.new ≡ string_bytes out.old) }
{
    line.clear();
    write!(line, "{number} bad {fault}\n")?;
    out.push_str(line.as_str())
}
