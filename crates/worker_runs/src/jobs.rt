//! What the lines of a script ask for.

use hdfs_types::op::Request;
use hdfs_values::fault::IllFormed;
use script_text::line::read_line;
use script_words::words::{is_skipped, pieces_between, without_return};
use std::alloc::{AllocError, Global};

/// A line that gets an answer.
#[derive(Clone, Copy, Debug, PartialEq, Eq)]
pub struct Line {
    /// Counted from 1; empty lines and comments count.
    pub number: usize,
    /// How it is ill-formed. Where it isn't, it asks for the next of the jobs.
    pub fault: Option<IllFormed>,
}

/// What a script asks for: its lines that get an answer, and the requests of those that aren't ill-formed, both in the script's order.
#[derive(Drop)]
pub struct ScriptJobs {
    pub lines: Vec<Line>,
    pub jobs: Vec<Request>,
}

impl ScriptJobs {
    /// Whether a line is ill-formed.
    pub fn has_bad(&self) -> bool {
        self.lines.iter().any(|line| line.fault.is_some())
    }
}

// Adds a line, and its job where it is a request. A call of a DataNode and the delivery of a message are none.
fn add_line(
    alloc: Global,
    number: usize,
    line: &str,
    script: &mut ScriptJobs,
) -> Result<(), AllocError> {
    let line = without_return(line);
    if is_skipped(line) {
        return Ok(());
    }
    let fault = match read_line(alloc, line)? {
        Ok(request) => {
            script.jobs.push(request)?;
            None
        }
        Err(fault) => Some(fault),
    };
    script.lines.push(Line { number, fault })?;
    Ok(())
}

/// What the lines of a script ask for. Linear in the script.
///
/// # Errors
/// Out of memory.
pub fn jobs_in(alloc: Global, script: &str) -> Result<ScriptJobs, AllocError> {
    let mut read = ScriptJobs {
        lines: Vec::new(alloc),
        jobs: Vec::new(alloc),
    };
    let mut number = 0usize;
    for line in &pieces_between(alloc, script, '\n')? {
        number = number.saturating_add(1);
        add_line(alloc, number, line, &mut read)?;
    }
    Ok(read)
}
