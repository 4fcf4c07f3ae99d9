//! What is done to a core, step by step, and what it answers.

use block_answers::commands::Commands;
use block_records::node_set::NodeSet;
use block_tokens::key::KeyList;
use flat_rows::verdict::Verdict;
use hdfs_types::key::Key;
use hdfs_types::op::{Op, Request};
use hdfs_types::replica::{RecoveredBlock, ReportedReplica};
use hdfs_types::reply::Reply;
use hdfs_values::ids::{BlockId, Stamp};
use hdfs_values::moment::Moment;
use hdfs_values::who::Who;
use history::config::{Config, Counters};
use name_core::namenode::NameCore;
use node_ids::node_id::NodeId;
use script_text::answer::print_verdict;
use script_text::line::read_line;
use std::alloc::Global;
use std::fmt::Write;
use std::test::Fail;

/// A step of a test, with the line or the lines that are written of it.
#[derive(Clone, Copy)]
pub enum Step {
    /// The requests of lines of a script, and what each is answered.
    Lines(&'static str),
    /// A DataNode, by its principal, reports a replica of a block, at a stamp, with a length.
    Report(&'static str, u64, u64, u64),
    /// The DataNode 1 tells that the recovery of a block under a stamp has ended with a length, on these DataNodes.
    End(u64, u64, u64, &'static [u32]),
    /// Whether the DataNode 1 lives at a moment.
    Lives(u64),
    /// How many tokens were granted.
    Granted,
    /// Whether permission checking is on.
    Checking,
    /// Nothing is written, and what was written before is forgotten.
    Forget,
}

// Each key with its expiry, where it has one.
fn write_keys(keys: &KeyList, text: &mut String) -> Result<(), Fail> {
    for (serial, key) in keys.as_slice() {
        write!(text, " key {}", serial.get())?;
        if let Some(expiry) = key.expiry {
            write!(text, " until {expiry}")?;
        }
    }
    Ok(())
}

// What a DataNode is told: the keys, what it is to remove, how many recoveries it is to lead, and what it is to copy.
fn write_commands(commands: &Commands, text: &mut String) -> Result<(), Fail> {
    write_keys(commands.keys(), text)?;
    for removal in commands.removals() {
        write!(
            text,
            " remove {} {}",
            removal.block.get(),
            removal.stamp.get()
        )?;
    }
    if !commands.recoveries().is_empty() {
        write!(text, " lead {}", commands.recoveries().len())?;
    }
    for copy in commands.copies() {
        write!(text, " copy {} to {}", copy.block.get(), copy.target.get())?;
    }
    Ok(())
}

// A verdict as a script would print it, with the tokens numbered behind so many rows, and what a DataNode is told.
fn write_verdict(rows: usize, verdict: &Verdict, text: &mut String) -> Result<(), Fail> {
    print_verdict(rows, verdict, text)?;
    if let Verdict::Done(Reply::Commands(commands)) = verdict {
        write_commands(commands, text)?;
    }
    Ok(text.push_str("\n")?)
}

// Steps the request of a line, and writes what it is answered.
fn ask(core: &mut NameCore, text: &mut String, alloc: Global, line: &str) -> Result<(), Fail> {
    let rows = core.ledger().len();
    let Ok(request) = read_line(alloc, line)? else {
        return Ok(text.push_str("bad\n")?);
    };
    let answer = core.step(0, 0, &request);
    drop(request);
    drop(answer?);
    let entry = core.last().ok_or("an entry")?;
    write_verdict(rows, &entry.verdict, text)
}

fn ask_all(core: &mut NameCore, text: &mut String, alloc: Global, lines: &str) -> Result<(), Fail> {
    for line in lines.lines() {
        ask(core, text, alloc, line)?;
    }
    Ok(())
}

fn nodes_of(alloc: Global, ids: &[u32]) -> Result<NodeSet, Fail> {
    let mut nodes = Vec::new(alloc);
    for id in ids {
        nodes.push(NodeId::new(*id).ok_or("a node")?)?;
    }
    Ok(NodeSet::from_ascending(nodes).ok_or("nodes by their ids")?)
}

fn checking_line(core: &NameCore) -> &'static str {
    if core.checking() {
        "checking on\n"
    } else {
        "checking off\n"
    }
}

// Appends what no line of a script says, and writes what it is answered: a report of a replica, or, where DataNodes are named which then hold
// the block, the end of a recovery.
fn append(
    core: &mut NameCore,
    text: &mut String,
    alloc: Global,
    caller: &str,
    replica: ReportedReplica,
    ids: &[u32],
) -> Result<(), Fail> {
    let moment = Moment::new(0).ok_or("a moment")?;
    let nodes = nodes_of(alloc, ids)?;
    let caller = Who::parse(alloc, caller)?;
    let op = if ids.is_empty() {
        drop(nodes);
        Op::Reported(replica)
    } else {
        Op::CommitRecovery(RecoveredBlock {
            block: replica.block,
            stamp: replica.stamp,
            length: replica.length,
            nodes,
        })
    };
    let request = Request { caller, moment, op };
    let answer = core.step(0, 0, &request);
    drop(request);
    let answer = answer?;
    write_verdict(0, &answer.verdict, text)
}

fn replica(block: u64, stamp: u64, length: u64) -> ReportedReplica {
    ReportedReplica {
        block: BlockId::new(block),
        stamp: Stamp::new(stamp),
        length,
    }
}

fn write_lives(core: &NameCore, now: u64, text: &mut String) -> Result<(), Fail> {
    let node = NodeId::new(1).ok_or("a node")?;
    let now = Moment::new(now).ok_or("a moment")?;
    let lives = core.blocks().is_live(node, now);
    Ok(write!(text, "lives {lives}\n")?)
}

fn perform(
    core: &mut NameCore,
    text: &mut String,
    alloc: Global,
    steps: &[Step],
) -> Result<(), Fail> {
    for step in steps {
        match *step {
            Step::Lines(lines) => ask_all(core, text, alloc, lines)?,
            Step::Report(caller, block, stamp, length) => {
                append(
                    core,
                    text,
                    alloc,
                    caller,
                    replica(block, stamp, length),
                    &[],
                )?;
            }
            Step::End(block, stamp, length, ids) => {
                append(
                    core,
                    text,
                    alloc,
                    "dn-1",
                    replica(block, stamp, length),
                    ids,
                )?;
            }
            Step::Lives(now) => write_lives(core, now, text)?,
            Step::Granted => write!(text, "granted {}\n", core.ledger().len())?,
            Step::Checking => text.push_str(checking_line(core))?,
            Step::Forget => text.clear(),
        }
    }
    Ok(())
}

/// Steps, and what is to be written of them.
pub struct Case {
    pub name: &'static str,
    /// From which numbers on the core gives blocks, stamps and keys, where these aren't the standard ones.
    pub first: Option<Counters>,
    pub steps: &'static [Step],
    pub told: &'static str,
}

/// Writes what the steps of a case tell.
pub fn tell(alloc: Global, case: &Case, text: &mut String) -> Result<(), Fail> {
    let standard = Config::standard();
    let first = case.first.unwrap_or(standard.first());
    let config = Config::new(standard.durations(), standard.replica_limit(), first);
    let mut core = NameCore::open(alloc, config.ok_or("a config")?, Key::new([1; 20]))?;
    let done = perform(&mut core, text, alloc, case.steps);
    drop(core);
    done
}
