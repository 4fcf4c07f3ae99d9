ghost use Rattle.cluster_runs.specs.Output as output;
ghost use Rattle.cluster_runs.specs.Shown.{Shows};

use crate::hints::{Line, add_hints, hint_on_bytes, next_hint, run_with_hints};
use cluster_runs::script::run_more;
use cluster_runs::session::Session;
use explanations::explain::{request_in, rows_of, trail_on};
use flat_rows::ask::asks_of;
use flat_rows::demand::{Demand, Role, needs_of};
use flat_rows::trail::Judged;
use hdfs_types::op::{Op, Request};
use namespace_rows::row::Row;
use script_words::words::{pieces_between, without_return, words_in};
use std::alloc::{AllocError, Global};
use std::{slice, str};

/// Which path of a rename a need is of, and the role of its component there.
#[derive(Clone, Copy)]
struct Side {
    path: &'static str,
    role: &'static str,
}

/// What the manual calls a role.
fn role_name(role: Role) -> &'static str {
    match role {
        Role::Traversed => "traverse",
        Role::Ancestor => "nearest above",
        Role::Parent => "holder",
        Role::Final => "the path itself",
        Role::SubTree => "sub-tree",
    }
}

// The needs of a rename are of its two paths by turns, also where it names one path twice.
static RENAMED: [&str; 5] = ["from", "to", "from", "to", "from"];

/// Adds a side for each component that a need is asked at on these rows.
fn push_sides(
    alloc: Global,
    rows: &[Row],
    demand: &[Demand<'_>],
    side: Side,
    sides: &mut Vec<Side>,
) -> Result<(), AllocError> {
    for _ask in &asks_of(alloc, rows, demand)? {
        sides.push(side)?;
    }
    Ok(())
}

/// Adds the sides of each of these needs of a rename, in their order.
fn push_all_sides(
    alloc: Global,
    rows: &[Row],
    needs: &[Demand<'_>],
    sides: &mut Vec<Side>,
) -> Result<(), AllocError> {
    for (demand, path) in needs.iter().zip(&RENAMED) {
        let side = Side {
            path: *path,
            role: role_name(demand.role()),
        };
        push_sides(alloc, rows, slice::from_ref(demand), side, sides)?;
    }
    Ok(())
}

/// The sides of all that a rename is asked for on these rows, in the order of judging.
fn sides_of(alloc: Global, rows: &[Row], op: &Op) -> Result<Vec<Side>, AllocError> {
    let needs = needs_of(alloc, op)?;
    let mut sides = Vec::new(alloc);
    push_all_sides(alloc, rows, needs.as_slice(), &mut sides)?;
    Ok(sides)
}

/// Adds the side of each need.
fn add_sides(
    line: Line<'_>,
    needs: &[Judged],
    sides: &[Side],
    out: &mut String,
) -> Result<(), AllocError> {
    let script = line.script;
    let number = line.number;
    for (judged, side) in needs.iter().zip(sides) {
        let path = &judged.path;
        let need = &judged.need;
        let of = side.path;
        let role = side.role;
        writeln!(out, "{script}:{number}: {path} {need} {of}: {role}")?;
    }
    Ok(())
}

/// Adds which path of a rename each need is of that is judged.
fn add_rename_hints(
    alloc: Global,
    line: Line<'_>,
    session: &Session,
    request: &Request,
    out: &mut String,
) -> Result<(), AllocError> {
    let Op::Rename(_, _) = &request.op else {
        return Ok(());
    };
    let rows = rows_of(alloc, session.world().core().tree())?;
    let sides = sides_of(alloc, rows.as_slice(), &request.op)?;
    let needs = trail_on(alloc, session, request)?;
    add_sides(line, &needs, &sides, out)
}

/// What a line is that is neither ill-formed nor a request.
fn kind_of(alloc: Global, line: &str) -> Result<&'static str, AllocError> {
    if line.is_empty() {
        return Ok("an empty line");
    }
    if line.starts_with('#') {
        return Ok("a comment");
    }
    let words = words_in(alloc, line)?;
    match words.as_slice() {
        [_, _, node, ..] if node.starts_with('@') => Ok("a call of a DataNode"),
        _ => Ok("the delivery of a message"),
    }
}

/// Adds why a line is no request.
fn add_reason(
    alloc: Global,
    line: Line<'_>,
    session: &Session,
    out: &mut String,
) -> Result<(), AllocError> {
    let script = line.script;
    let number = line.number;
    match next_hint(alloc, session, line.text)? {
        Some(hint) => writeln!(out, "{script}:{number}: {hint}"),
        None => {
            let kind = kind_of(alloc, without_return(line.text))?;
            writeln!(out, "{script}:{number}: {kind}")
        }
    }
}

/// Adds what is said of a line behind those that were run, and runs it where it is a request; returns whether it is.
fn add_hints_on_line(
    alloc: Global,
    line: Line<'_>,
    session: &mut Session,
    out: &mut String,
) -> Result<bool, AllocError> {
    let Some(request) = request_in(alloc, line.text)? else {
        add_reason(alloc, line, session, out)?;
        return Ok(false);
    };
    let added = add_rename_hints(alloc, line, session, &request, out);
    drop(request);
    added?;
    run_more(session, line.text)?;
    Ok(true)
}

/// Runs the lines before one, and adds the hints on them, and on it; returns whether it is a request.
fn add_hints_up_to(
    alloc: Global,
    before: &[&str],
    line: Line<'_>,
    session: &mut Session,
    out: &mut String,
) -> Result<bool, AllocError>
    requires { Shows output.no_lines session.old }
{
    let hints = run_with_hints(alloc, session, before)?;
    add_hints(line.script, &hints, out)?;
    add_hints_on_line(alloc, line, session, out)
}

/// Adds what a request is refused with, where no need forbids it: the last answer, without its number.
fn add_refusal(line: Line<'_>, answers: &str, out: &mut String) -> Result<(), AllocError> {
    let Some(last) = answers.lines().last() else {
        return Ok(());
    };
    let Some((_, answer)) = last.split_once(' ') else {
        return Ok(());
    };
    if answer.starts_with("refused ") {
        let script = line.script;
        let number = line.number;
        writeln!(out, "{script}:{number}: granted, and then {answer}")?;
    }
    Ok(())
}

/// Adds the hints on lines that begin a script, and on the one behind them.
fn add_hints_behind(
    alloc: Global,
    before: &[&str],
    line: Line<'_>,
    out: &mut String,
) -> Result<(), AllocError> {
    let mut session = Session::open(alloc)?;
    let added = add_hints_up_to(alloc, before, line, &mut session, out);
    let answers = session.into_output();
    if added? {
        add_refusal(line, answers.as_str(), out)?;
    }
    Ok(())
}

/// The lines of a text; the empty piece behind the last line feed isn't one for who counts them.
fn counted<'a, 'b>(lines: &'b [&'a str]) -> &'b [&'a str] {
    match lines {
        [front @ .., last] if last.is_empty() => front,
        _ => lines,
    }
}

/// Adds that the script has no such line.
fn add_count(name: &str, count: usize, out: &mut String) -> Result<(), AllocError> {
    if count == 1 {
        writeln!(out, "{name}: the script has 1 line")
    } else {
        writeln!(out, "{name}: the script has {count} lines")
    }
}

/// The hints on the line behind so many others.
fn hints_behind(
    alloc: Global,
    name: &str,
    lines: &[&str],
    before: usize,
) -> Result<String, AllocError> {
    let mut out = String::new(alloc);
    let (done, left) = lines.split_at(before.min(lines.len()));
    let Some(text) = left.first() else {
        add_count(name, lines.len(), &mut out)?;
        return Ok(out);
    };
    let line = Line {
        script: name,
        number: done.len().saturating_add(1),
        text,
    };
    add_hints_behind(alloc, done, line, &mut out)?;
    Ok(out)
}

fn hints_on_text(
    alloc: Global,
    name: &str,
    script: &str,
    number: u32,
) -> Result<String, AllocError> {
    let lines = pieces_between(alloc, script, '\n')?;
    hints_behind(
        alloc,
        name,
        counted(&lines),
        number.saturating_sub(1) as usize,
    )
}

/// The hints on a line of a script of this name, whose first line has the number 1: on each ill-formed line before it; why there is
/// nothing to explain, where it is no request; and else of a rename which path each need is of that is judged, and what the request
/// is refused with where no need forbids it. Of a script that isn't UTF-8, where that begins.
///
/// # Errors
/// Out of memory.
pub fn hints_on_explained(
    alloc: Global,
    name: &str,
    script: &[u8],
    number: u32,
) -> Result<String, AllocError> {
    match str::from_utf8(script) {
        Ok(text) => hints_on_text(alloc, name, text, number),
        Err(error) => {
            let good = error.valid_up_to().min(script.len());
            hint_on_bytes(alloc, name, &script[..good])
        }
    }
}
