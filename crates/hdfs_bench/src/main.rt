//! The program `hdfs_bench`: `hdfs_bench NAME N` does a workload of size N in this process, and prints
//! `NAME N OPS_PER_SECOND`.
//!
//! A workload is two scripts of a cluster: lines that prepare, and lines that are timed. One cluster of a NameNode and the DataNodes 1 to 8
//! answers both. The clock runs from the text of the timed lines to the text of their answers, so what is timed is what a user runs: a
//! line is read, its request is stepped, with its entry in the history, or its call or delivery is, and the answer is printed, into memory.
//! The texts are made before, and afterwards the answers are counted: each line of both has to be answered `ok`. `check_token_uncached`
//! alone is no script.
//!
//! `hdfs_bench NAME N script` prints the lines and runs none, and `hdfs_bench NAME N answers` prints what they are answered.
#![tactic(auto)]

mod fault;
mod run;

use crate::fault::Fault;
use crate::run::run_alone;
use bench_lines::answers::{rate, rate_of};
use bench_lines::command::{Asked, Shown, asked_by};
use bench_lines::text::{Script, text_of};
use bench_lines::workload::{Workload, workload_named};
use std::env;
use std::process::ExitCode;
use token_timing::timing::check_uncached;

/// The exit status for a fault of the command line.
const BAD_COMMAND_LINE: u8 = 2;

const USAGE: &str = "usage: hdfs_bench NAME N [script|answers]
  does a workload of size N and prints NAME N OPS_PER_SECOND, or prints its lines, or what these are answered
  timed: to read the lines, to step what they say and to print the answers into memory; check_token_uncached is no script
  NAME: check_token_uncached mkdirs stat acl_stat setfacl ls rename_dir delete_recursive delete_each create_complete append_takeover tick_idle tick_expired addblock addblock_complete open open_granted report heartbeat_idle step_stat script packet_64k packet_512 packet_passed_on read_64k pipeline recovery";

/// The workload that is no script.
const CHECK_TOKEN: &str = "check_token_uncached";

fn refuse(rt: &HostRuntime) -> Result<ExitCode, Fault> {
    eprintln!(rt; "{USAGE}")?;
    Ok(ExitCode::from(BAD_COMMAND_LINE))
}

fn print_rate(rt: &HostRuntime, asked: Asked, rate: u64) -> Result<ExitCode, Fault> {
    let (name, size) = (asked.name, asked.size);
    println!(rt; "{name} {size} {rate}")?;
    Ok(ExitCode::SUCCESS)
}

fn show_lines(rt: &HostRuntime, script: Script) -> Result<ExitCode, Fault> {
    rt.print(script.before)?;
    rt.print(script.timed)?;
    Ok(ExitCode::SUCCESS)
}

fn show_answers(rt: &HostRuntime, script: Script) -> Result<ExitCode, Fault> {
    run_alone(rt, script, true)?;
    Ok(ExitCode::SUCCESS)
}

fn show_rate(
    rt: &HostRuntime,
    asked: Asked,
    workload: Workload,
    script: Script,
) -> Result<ExitCode, Fault> {
    let taken = run_alone(rt, script, false)?;
    let rate = rate_of(workload, asked.size, script.timed, taken);
    print_rate(rt, asked, rate)
}

fn show_texts(
    rt: &HostRuntime,
    asked: Asked,
    workload: Workload,
    script: Script,
) -> Result<ExitCode, Fault> {
    match asked.shown {
        Shown::Rate => show_rate(rt, asked, workload, script),
        Shown::Lines => show_lines(rt, script),
        Shown::Answers => show_answers(rt, script),
    }
}

fn show_script(rt: &HostRuntime, asked: Asked, workload: Workload) -> Result<ExitCode, Fault> {
    let before = text_of(rt.alloc(), workload.before, asked.size)?;
    let timed = text_of(rt.alloc(), workload.timed, asked.size)?;
    let script = Script {
        before: before.as_str(),
        timed: timed.as_str(),
    };
    show_texts(rt, asked, workload, script)
}

/// Shows how fast a token is judged, so many times.
fn show_tokens(rt: &HostRuntime, asked: Asked) -> Result<ExitCode, Fault> {
    let taken = check_uncached(rt, asked.size)?;
    print_rate(rt, asked, rate(u64::from(asked.size), taken))
}

/// Shows what is no script.
fn show_other(rt: &HostRuntime, asked: Asked) -> Result<ExitCode, Fault> {
    match asked.shown {
        Shown::Rate if asked.name == CHECK_TOKEN => show_tokens(rt, asked),
        _ => refuse(rt),
    }
}

fn show(rt: &HostRuntime, asked: Asked) -> Result<ExitCode, Fault> {
    match workload_named(asked.name) {
        Some(workload) => show_script(rt, asked, workload),
        None => show_other(rt, asked),
    }
}

fn main(rt: HostRuntime) -> Result<ExitCode, Fault> {
    let words: Vec<String> = env::args(&rt)?.collect(rt.alloc())?;
    match asked_by(&words) {
        Some(asked) => show(&rt, asked),
        None => refuse(&rt),
    }
}
