//! The lines of a script, each asked once more where memory ran out. `tools/refuse-memory-again` runs this with the stored scripts, and has memory run
//! out once.

use cluster_core::world::World;
use cluster_text::event_line::event_of_line;
use cluster_text::told::{print_bad, print_told};
use cluster_trace::outcome::Outcome;
use hdfs_types::key::Key;
use hdfs_values::fault::{IllFormed, ParseFault};
use history::config::Config;
use node_ids::node_id::NodeId;
use script_words::words::{is_skipped, without_return};
use std::alloc::{AllocError, Global};
use std::test::*;
use std::{env, fs};

// Where the tool doesn't name a script.
const SCRIPT: &str =
    "0 hdfs mkdirs /a 1777\n\n0 alice mkdirs /a/b/c 700\n0 bob stat /a/b/c\n0 dn-1 heartbeat\n0 - deliver 1\n0 bob frob /\n";

const ANSWERS: &str =
    "1 ok\n3 ok\n4 denied /a/b --x by other::---\n5 ok heartbeat sent 1-1\n6 ok keys 1\n7 bad 0 BadLine\n";

// A cluster as a script's, and what the lines so far print.
#[derive(Drop)]
struct Asking {
    world: World,
    // how many lines were asked, empty ones and comments among them
    number: usize,
    // where an answer is formatted
    line: String,
    out: String,
    alloc: Global,
}

fn open_world(alloc: Global) -> Result<World, Fail> {
    let mut nodes = Vec::new(alloc);
    for id in 1..9u32 {
        nodes.push(NodeId::new(id).ok_or("a node")?)?;
    }
    Ok(World::new(alloc, Config::standard(), Key::new([0x0b; 20]), &nodes)?)
}

fn open(alloc: Global) -> Result<Asking, Fail> {
    Ok(Asking {
        world: open_world(alloc)?,
        number: 0,
        line: String::new(alloc),
        out: String::new(alloc),
        alloc,
    })
}

// What comes of a line, or how it is ill-formed. Where memory runs out nothing has changed.
fn step<'a>(
    asking: &mut Asking,
    words: &mut Vec<&'a str>,
    line: &'a str,
) -> Result<Result<Outcome, IllFormed>, AllocError> {
    let ledger = asking.world.core().ledger().as_slice();
    match event_of_line(asking.alloc, ledger, words, line) {
        Ok(event) => match asking.world.step(event) {
            Ok(outcome) => Ok(Ok(outcome)),
            Err(_) => Err(AllocError),
        },
        Err(ParseFault::IllFormed(fault)) => Ok(Err(fault)),
        Err(ParseFault::OutOfMemory) => Err(AllocError),
    }
}

fn step_again<'a>(
    asking: &mut Asking,
    words: &mut Vec<&'a str>,
    line: &'a str,
) -> Result<Result<Outcome, IllFormed>, AllocError> {
    match step(asking, words, line) {
        Ok(stepped) => Ok(stepped),
        Err(_) => step(asking, words, line),
    }
}

// Adds what came of an event, behind the number of its line.
fn print_stepped(
    number: usize,
    rows: usize,
    world: &World,
    outcome: &Outcome,
    line: &mut String,
    out: &mut String,
) -> Result<(), AllocError> {
    let newest = match world.core().last() {
        Some(entry) => Some(&entry.verdict),
        None => None,
    };
    print_told(number, rows, newest, outcome, line, out)
}

// Adds the answer, where the ledger had so many rows before. Where memory runs out the text is as before.
fn tell(
    asking: &mut Asking,
    rows: usize,
    stepped: &Result<Outcome, IllFormed>,
) -> Result<(), AllocError> {
    match stepped {
        Ok(outcome) => print_stepped(
            asking.number,
            rows,
            &asking.world,
            outcome,
            &mut asking.line,
            &mut asking.out,
        ),
        Err(fault) => print_bad(asking.number, *fault, &mut asking.line, &mut asking.out),
    }
}

fn tell_again(
    asking: &mut Asking,
    rows: usize,
    stepped: &Result<Outcome, IllFormed>,
) -> Result<(), AllocError> {
    match tell(asking, rows, stepped) {
        Ok(()) => Ok(()),
        Err(_) => tell(asking, rows, stepped),
    }
}

// Asks a line, and adds its answer where it gets one.
fn ask<'a>(asking: &mut Asking, words: &mut Vec<&'a str>, line: &'a str) -> Result<(), AllocError> {
    asking.number = asking.number.wrapping_add(1);
    let line = without_return(line);
    if is_skipped(line) {
        return Ok(());
    }
    let rows = asking.world.core().ledger().len();
    let stepped = step_again(asking, words, line)?;
    let told = tell_again(asking, rows, &stepped);
    drop(stepped);
    told
}

fn ask_all<'a>(
    asking: &mut Asking,
    words: &mut Vec<&'a str>,
    script: &'a str,
) -> Result<(), AllocError> {
    for line in script.lines() {
        ask(asking, words, line)?;
    }
    Ok(())
}

// The script and its answers that the environment names by a path without its ending, or those above.
fn script_of(rt: &HostRuntime) -> Result<(String, String), Fail> {
    let Ok(name) = env::var(rt, "HDFSNS_ASKED_AGAIN") else {
        return Ok((
            String::from_str(rt.alloc(), SCRIPT)?,
            String::from_str(rt.alloc(), ANSWERS)?,
        ));
    };
    let script = format!(in rt.alloc(); "{name}.hdfs")?;
    let answers = format!(in rt.alloc(); "{name}.out")?;
    Ok((
        fs::read_to_string(rt, script.as_str())?,
        fs::read_to_string(rt, answers.as_str())?,
    ))
}

#[test]
fn lines_are_answered_when_they_are_asked_again(rt: HostRuntime) -> Result<(), Fail> {
    let (script, answers) = script_of(&rt)?;
    let mut words = Vec::with_capacity(rt.alloc(), 16)?;
    let mut asking = open(rt.alloc())?;
    println!(rt; "begun")?;
    let asked = ask_all(&mut asking, &mut words, script.as_str());
    assert!(rt; asked.is_ok() && asking.out.as_str() == answers.as_str());
    Ok(())
}
