use crate::text::Script;
use crate::workload::{Workload, count_at};
use std::time::Duration;

/// Whether the answer in a line of output, behind its number, is `ok`.
fn is_ok(line: &str) -> bool {
    match line.split_once(' ') {
        Some((_, answer)) => answer == "ok" || answer.starts_with("ok "),
        None => false,
    }
}

/// How many lines of an output are answered `ok`.
fn count_ok(output: &str) -> u64 {
    let mut count: u64 = 0;
    for line in output.lines() {
        if is_ok(line) {
            count = count.saturating_add(1);
        }
    }
    count
}

/// How many lines a text has.
fn count_lines(text: &str) -> u64 {
    let mut count: u64 = 0;
    for _ in text.lines() {
        count = count.saturating_add(1);
    }
    count
}

/// Whether an output answers each line of a script `ok`.
pub fn are_all_ok(output: &str, script: Script) -> bool {
    let lines = count_lines(script.before).saturating_add(count_lines(script.timed));
    count_ok(output) == lines
}

/// How many operations the timed lines of a workload are.
fn operations(workload: Workload, size: u32, timed: &str) -> u64 {
    match workload.operations {
        "lines" => count_lines(timed),
        count => u64::from(count_at(count, size)),
    }
}

/// Whole operations in a second. A time below a nanosecond counts as one; above 18,446,744,073 operations the rate is too low.
pub fn rate(operations: u64, taken: Duration) -> u64 {
    let nanoseconds = u64::try_from(taken.as_nanos()).unwrap_or(u64::MAX);
    operations.saturating_mul(1_000_000_000) / nanoseconds.max(1)
}

/// How many operations of a workload of a size are done in a second, where the timed lines take so long.
pub fn rate_of(workload: Workload, size: u32, timed: &str, taken: Duration) -> u64 {
    rate(operations(workload, size, timed), taken)
}
