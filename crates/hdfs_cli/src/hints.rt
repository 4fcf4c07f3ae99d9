ghost use Rattle.std.specs.Prelude.{◌≡◌, ◌+◌, ◌++◌, ◌<◌, ◌^◌, IfOk, OnOk, map};
ghost use Rattle.std.specs.Option.{option_map};
ghost use Rattle.script_hints.specs.Hints.{fault_of, fault_in};
ghost use Rattle.cluster_runs.specs.Output as output;
ghost use Rattle.cluster_runs.specs.Shown.{Shows};
ghost use Rattle.hdfs_cli.specs.Hinted as spec;

use cluster_runs::session::Session;
use script_hints::hint::{Hint, hint_in};
use script_words::words::pieces_between;
use std::alloc::{AllocError, Global};
use std::{slice, str};

/// A hint, and the number of the line that gets it.
#[derive(Clone, Copy)]
pub struct NumberedHint<'a> {
    /// Counted from 1.
    pub number: usize,
    pub hint: Hint<'a>,
}

/// A line of a script: the script's name, the line's number from 1 on, and its text.
#[derive(Clone, Copy)]
pub(crate) struct Line<'a> {
    pub(crate) script: &'a str,
    pub(crate) number: usize,
    pub(crate) text: &'a str,
}

/// The hint on the line behind those that were run, where it is ill-formed.
///
/// # Errors
/// Out of memory.
pub(crate) fn next_hint<'a>(
    alloc: Global,
    session: &Session,
    line: &'a str,
) -> Result<Option<Hint<'a>>, AllocError>
    ensures { IfOk result (λ hint. option_map fault_of hint ≡ fault_in (output.ledger_after session.now.world) line.now) }
{
    let core = session.world().core();
    hint_in(alloc, core.ledger().as_slice(), line)
}

/// Adds the hint on the line behind those that were run, where it is ill-formed.
fn push_hint<'a>(
    alloc: Global,
    session: &Session,
    line: &'a str,
    hints: &mut Vec<NumberedHint<'a>>,
) -> Result<(), AllocError>
    requires { session.now.number + 1 < 2 ^ 64 }
    ensures { OnOk result (map spec.numbered_fault hints.new.items ≡ map spec.numbered_fault hints.old.items
        ++ spec.faults_at (session.now.number + 1) (fault_in (output.ledger_after session.now.world) line.now)) }
{
    if let Some(hint) = next_hint(alloc, session, line)? {
        let number = session.number() + 1;
        hints.push(NumberedHint { number, hint })?;
    }
    Ok(())
}

/// Runs the lines of a script from its beginning, and gives a hint on each that is answered `bad`, in their order.
///
/// # Errors
/// Out of memory.
pub(crate) fn run_with_hints<'a>(
    alloc: Global,
    session: &mut Session,
    lines: &[&'a str],
) -> Result<Vec<NumberedHint<'a>>, AllocError>
    requires { Shows output.no_lines session.old }
    ensures hints { IfOk result (λ hints. map spec.numbered_fault hints.items ≡ spec.bad_answers (output.after_lines (map (λ line. line.now) lines.now)).answers) }
    ensures lines { OnOk result (Shows (output.after_lines (map (λ line. line.now) lines.now)) session.new) }
{
    let mut hints = Vec::new(alloc);
    for line in lines {
        push_hint(alloc, session, line, &mut hints)?;
        session.serve_all(slice::from_ref(line))?;
    }
    Ok(hints)
}

/// Adds hints, a line for each.
///
/// # Errors
/// Out of memory. Some of the text may have been added then.
pub(crate) fn add_hints(
    script: &str,
    hints: &[NumberedHint<'_>],
    out: &mut String,
) -> Result<(), AllocError> {
    for numbered in hints {
        let number = numbered.number;
        let hint = numbered.hint;
        writeln!(out, "{script}:{number}: {hint}")?;
    }
    Ok(())
}

/// The hints on a script: one on each line that is answered `bad`, in their order.
fn hints_in<'a>(alloc: Global, script: &'a str) -> Result<Vec<NumberedHint<'a>>, AllocError>
    ensures { IfOk result (λ hints. map spec.numbered_fault hints.items ≡ spec.bad_answers (output.answers_of script.now)) }
{
    let lines = pieces_between(alloc, script, '\n')?;
    let mut session = Session::open(alloc)?;
    let hints = run_with_hints(alloc, &mut session, &lines);
    // what is printed of the script was printed before
    drop(session.into_output());
    hints
}

fn hints_on_text(alloc: Global, name: &str, script: &str) -> Result<String, AllocError> {
    let hints = hints_in(alloc, script)?;
    let mut out = String::new(alloc);
    add_hints(name, &hints, &mut out)?;
    Ok(out)
}

/// The line and the byte in it, both from 1 on, that come behind these bytes.
fn place_behind(front: &[u8]) -> (usize, usize) {
    let mut line = 1usize;
    let mut byte = 1usize;
    for before in front {
        if *before == b'\n' {
            line = line.saturating_add(1);
            byte = 1;
        } else {
            byte = byte.saturating_add(1);
        }
    }
    (line, byte)
}

/// The hint on a script that is UTF-8 up to the end of these bytes alone.
///
/// # Errors
/// Out of memory.
pub(crate) fn hint_on_bytes(alloc: Global, name: &str, front: &[u8]) -> Result<String, AllocError> {
    let (line, byte) = place_behind(front);
    format!(in alloc; "{name}:{line}: byte {byte} of the line is not UTF-8\n")
}

/// The hints on a script of this name: a line for each line of it that is answered `bad`, with what is wrong with it; of a script
/// that isn't UTF-8, where that begins.
///
/// # Errors
/// Out of memory.
pub fn hints_on_script(alloc: Global, name: &str, script: &[u8]) -> Result<String, AllocError> {
    match str::from_utf8(script) {
        Ok(text) => hints_on_text(alloc, name, text),
        Err(error) => {
            let good = error.valid_up_to().min(script.len());
            hint_on_bytes(alloc, name, &script[..good])
        }
    }
}
