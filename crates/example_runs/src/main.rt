//! Runs the shipped examples that the command line names, each a script `NAME.hdfs` and what it has to print, `NAME.out`, and
//! tells of each whether it does; of `NAME.audit` the history of the script is printed, which stands in `NAME.audit.out`. The gate
//! runs it in the folder of the examples.
#![tactic(auto)]

use cluster_runs::audit::audit;
use cluster_runs::script::run_script;
use std::alloc::AllocError;
use std::process::ExitCode;
use std::{env, fs, io};

/// What a script in a file prints.
fn printed(rt: &HostRuntime, script: &str) -> io::Result<Vec<u8>> {
    let mut text = Vec::new(rt.alloc());
    let mut file = fs::open(rt, script)?;
    match run_script(rt.alloc(), &mut file, &mut text) {
        Ok(_) => Ok(text),
        Err(_) => Err(io::Error::from(io::ErrorKind::Other)),
    }
}

/// The history of a script in a file.
fn audited(rt: &HostRuntime, script: &str) -> io::Result<Vec<u8>> {
    let mut text = Vec::new(rt.alloc());
    let mut file = fs::open(rt, script)?;
    match audit(rt.alloc(), &mut file, &mut text) {
        Ok(_) => Ok(text),
        Err(_) => Err(io::Error::from(io::ErrorKind::Other)),
    }
}

/// What the example of this name prints.
fn shown(rt: &HostRuntime, name: &str) -> io::Result<Vec<u8>> {
    if let Some(audited_name) = name.strip_suffix(".audit") {
        let script = format!(in rt.alloc(); "{audited_name}.hdfs")?;
        return audited(rt, script.as_str());
    }
    let script = format!(in rt.alloc(); "{name}.hdfs")?;
    printed(rt, script.as_str())
}

/// Whether the example of this name prints what is stored with it.
fn is_as_stored(rt: &HostRuntime, name: &str) -> io::Result<bool> {
    let wanted = format!(in rt.alloc(); "{name}.out")?;
    let printed = shown(rt, name)?;
    let wanted = fs::read(rt, wanted.as_str())?;
    Ok(printed == wanted)
}

/// Tells of one example; answers whether it prints what is stored with it.
fn tell(rt: &HostRuntime, name: &str) -> bool {
    let (is_right, word) = match is_as_stored(rt, name) {
        Ok(true) => (true, "as stored"),
        Ok(false) => (false, "differs"),
        Err(_) => (false, "can't be run"),
    };
    println!(rt; "{name}: {word}").is_ok() && is_right
}

fn are_right(rt: &HostRuntime, names: &[String]) -> bool {
    let mut are_right = true;
    for name in names {
        are_right = tell(rt, name.as_str()) && are_right;
    }
    are_right
}

fn main(rt: HostRuntime) -> ExitCode {
    let Ok(words) = env::args(&rt) else {
        return ExitCode::FAILURE;
    };
    let Ok(names) = words.skip(1).collect::<Vec<String>>(rt.alloc()) else {
        return ExitCode::FAILURE;
    };
    if are_right(&rt, &names) {
        ExitCode::SUCCESS
    } else {
        ExitCode::FAILURE
    }
}
