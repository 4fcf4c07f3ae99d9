//! The program `hdfsns`: its command line, and the standard streams and files that a script is read from and answered to.
#![tactic(auto)]

ghost use Rattle.std.specs.Prelude.{◌<◌};

use clap::Error;
use clap::error::ErrorKind;
use command_line::command::command;
use command_line::invocation::{Invocation, Number, Script};
use hdfs_cli::audit::audit;
use hdfs_cli::explain::{Explained, explain};
use hdfs_cli::explain_hints::hints_on_explained;
use hdfs_cli::hints::hints_on_script;
use hdfs_cli::script::{ScriptFault, Status, run_script};
use hdfs_cli::token::show_token;
use hdfs_cli::verbs::help_text;
use hdfs_cli::workers::{WorkersFault, run_workers};
use std::alloc::AllocError;
use std::io::Read;
use std::process::ExitCode;
use std::sync::Wait;
use std::thread::Threads;
use std::{env, fs, io};

/// The exit status where a line of the script, or the token, was ill-formed.
const ILL_FORMED: u8 = 1;

/// The exit status for a fault of the command line.
const BAD_COMMAND_LINE: u8 = 2;

/// The exit status where memory ran out, the script couldn't be read, or not all that is printed was written; or where what workers were
/// answered isn't what the history says.
const FAULT: u8 = 3;

/// Runs the script that a path or `-` names.
fn run(rt: &HostRuntime, path: &str) -> Result<Status, ScriptFault> {
    let mut writer = io::writer(rt);
    if path == "-" {
        return run_script(rt.alloc(), &mut rt.reader(), &mut writer);
    }
    match fs::open(rt, path) {
        Ok(mut file) => run_script(rt.alloc(), &mut file, &mut writer),
        Err(_) => Err(ScriptFault::CannotRead),
    }
}

/// Has so many workers run the script that a path or `-` names.
fn run_beside<T: Threads + Wait + Sync>(
    threads: &T,
    rt: &HostRuntime,
    path: &str,
    count: usize,
) -> Result<Status, WorkersFault>
    requires { 0 < count }
{
    let alloc = rt.alloc();
    let mut writer = io::writer(rt);
    if path == "-" {
        return run_workers(threads, alloc, &mut rt.reader(), &mut writer, count);
    }
    match fs::open(rt, path) {
        Ok(mut file) => run_workers(threads, alloc, &mut file, &mut writer, count),
        Err(_) => Err(WorkersFault::Script(ScriptFault::CannotRead)),
    }
}

/// Explains a line of the script that a path or `-` names.
fn explain_line(rt: &HostRuntime, path: &str, number: u32) -> Result<Explained, ScriptFault> {
    let mut writer = io::writer(rt);
    if path == "-" {
        return explain(rt.alloc(), &mut rt.reader(), number, &mut writer);
    }
    match fs::open(rt, path) {
        Ok(mut file) => explain(rt.alloc(), &mut file, number, &mut writer),
        Err(_) => Err(ScriptFault::CannotRead),
    }
}

/// Prints the history of the script that a path or `-` names.
fn audit_script(rt: &HostRuntime, path: &str) -> Result<Status, ScriptFault> {
    let mut writer = io::writer(rt);
    if path == "-" {
        return audit(rt.alloc(), &mut rt.reader(), &mut writer);
    }
    match fs::open(rt, path) {
        Ok(mut file) => audit(rt.alloc(), &mut file, &mut writer),
        Err(_) => Err(ScriptFault::CannotRead),
    }
}

fn report(rt: &HostRuntime, fault: ScriptFault, path: &str) {
    let _ = match fault {
        ScriptFault::CannotRead => eprintln!(rt; "hdfsns: cannot read {path}"),
        other => eprintln!(rt; "hdfsns: {other}"),
    };
}

fn no_memory(rt: &HostRuntime) -> ExitCode {
    report(rt, ScriptFault::OutOfMemory { served: 0 }, "");
    ExitCode::from(FAULT)
}

fn exit_code(status: Status) -> ExitCode {
    match status {
        Status::Clean => ExitCode::SUCCESS,
        Status::IllFormed => ExitCode::from(ILL_FORMED),
    }
}

/// The exit code of a run; a fault is reported.
fn code_of_run(rt: &HostRuntime, path: &str, ended: Result<Status, ScriptFault>) -> ExitCode {
    match ended {
        Ok(status) => exit_code(status),
        Err(fault) => {
            report(rt, fault, path);
            ExitCode::from(FAULT)
        }
    }
}

/// The exit code of an explanation; that there is none is reported, and so is a fault.
fn code_of_explanation(
    rt: &HostRuntime,
    path: &str,
    number: u32,
    found: Result<Explained, ScriptFault>,
) -> ExitCode {
    match found {
        Ok(Explained::Trail(status)) => exit_code(status),
        Ok(Explained::NoRequest) => {
            let _ = eprintln!(rt; "hdfsns: line {number} is no request");
            ExitCode::from(ILL_FORMED)
        }
        Err(fault) => {
            report(rt, fault, path);
            ExitCode::from(FAULT)
        }
    }
}

/// Answers a script that a path or `-` names.
fn answer_script(rt: &HostRuntime, path: &str) -> ExitCode {
    code_of_run(rt, path, run(rt, path))
}

/// Prints the history of a script that a path or `-` names.
fn answer_history(rt: &HostRuntime, path: &str) -> ExitCode {
    code_of_run(rt, path, audit_script(rt, path))
}

/// Prints the needs of a line of a script.
fn answer_line(rt: &HostRuntime, path: &str, number: u32) -> ExitCode {
    code_of_explanation(rt, path, number, explain_line(rt, path, number))
}

/// What hints call the script that a path or `-` names.
fn name_of(path: &str) -> &str {
    if path == "-" { "standard input" } else { path }
}

/// The bytes of the script that a path or `-` names.
fn bytes_of(rt: &HostRuntime, path: &str) -> io::Result<Vec<u8>> {
    if path != "-" {
        return fs::read(rt, path);
    }
    let mut bytes = Vec::new(rt.alloc());
    rt.reader().read_to_end(&mut bytes)?;
    Ok(bytes)
}

/// Reports that a script can't be read, and the system's reason.
fn cannot_read(rt: &HostRuntime, path: &str, error: &io::Error) -> ExitCode {
    if error.kind() == io::ErrorKind::OutOfMemory {
        return no_memory(rt);
    }
    report(rt, ScriptFault::CannotRead, path);
    let name = name_of(path);
    let _ = eprintln!(rt; "{name}: {error}");
    ExitCode::from(FAULT)
}

/// Prints hints behind what was reported.
fn with_hints(rt: &HostRuntime, code: ExitCode, hints: Result<String, AllocError>) -> ExitCode {
    match hints {
        Ok(text) => {
            let _ = eprint!(rt; "{text}");
            code
        }
        Err(_) => no_memory(rt),
    }
}

/// Answers a script, and prints the hints on it.
fn answer_bytes(rt: &HostRuntime, path: &str, script: &[u8]) -> ExitCode {
    let mut reader = script;
    let ended = run_script(rt.alloc(), &mut reader, &mut io::writer(rt));
    let code = code_of_run(rt, path, ended);
    with_hints(rt, code, hints_on_script(rt.alloc(), name_of(path), script))
}

/// Prints the history of a script, and the hints on it.
fn audit_bytes(rt: &HostRuntime, path: &str, script: &[u8]) -> ExitCode {
    let mut reader = script;
    let ended = audit(rt.alloc(), &mut reader, &mut io::writer(rt));
    let code = code_of_run(rt, path, ended);
    with_hints(rt, code, hints_on_script(rt.alloc(), name_of(path), script))
}

/// Prints the needs of a line, and the hints on it.
fn explain_bytes(rt: &HostRuntime, path: &str, script: &[u8], number: u32) -> ExitCode {
    let mut reader = script;
    let found = explain(rt.alloc(), &mut reader, number, &mut io::writer(rt));
    let code = code_of_explanation(rt, path, number, found);
    let hints = hints_on_explained(rt.alloc(), name_of(path), script, number);
    with_hints(rt, code, hints)
}

/// Answers a script that a path or `-` names, with hints.
fn answer_script_with_hints(rt: &HostRuntime, path: &str) -> ExitCode {
    match bytes_of(rt, path) {
        Ok(script) => answer_bytes(rt, path, script.as_slice()),
        Err(error) => cannot_read(rt, path, &error),
    }
}

/// Prints the history of a script that a path or `-` names, with hints.
fn answer_history_with_hints(rt: &HostRuntime, path: &str) -> ExitCode {
    match bytes_of(rt, path) {
        Ok(script) => audit_bytes(rt, path, script.as_slice()),
        Err(error) => cannot_read(rt, path, &error),
    }
}

/// Prints the needs of a line of a script, with hints.
fn answer_line_with_hints(rt: &HostRuntime, path: &str, number: u32) -> ExitCode {
    match bytes_of(rt, path) {
        Ok(script) => explain_bytes(rt, path, script.as_slice(), number),
        Err(error) => cannot_read(rt, path, &error),
    }
}

/// Prints the line of a token.
fn answer_token(rt: &HostRuntime, digits: &str) -> ExitCode {
    let Ok(line) = show_token(rt.alloc(), digits) else {
        return no_memory(rt);
    };
    let text = line.text;
    if println!(rt; "{text}").is_err() {
        report(rt, ScriptFault::CannotWrite, "");
        return ExitCode::from(FAULT);
    }
    if line.is_malformed {
        return ExitCode::from(ILL_FORMED);
    }
    ExitCode::SUCCESS
}

fn refuse_number(rt: &HostRuntime, name: &str, word: &str) -> ExitCode {
    let _ = eprintln!(rt;
        "error: invalid value '{word}' for '{name}': invalid digit found in string\n\nFor more information, try '--help'."
    );
    ExitCode::from(BAD_COMMAND_LINE)
}

/// The exit code of a run by workers; a fault is reported.
fn code_of_workers(rt: &HostRuntime, path: &str, ended: Result<Status, WorkersFault>) -> ExitCode {
    match ended {
        Ok(status) => exit_code(status),
        Err(WorkersFault::Script(fault)) => {
            report(rt, fault, path);
            ExitCode::from(FAULT)
        }
        Err(other) => {
            let _ = eprintln!(rt; "hdfsns: {other}");
            ExitCode::from(FAULT)
        }
    }
}

/// Answers a script that a path or `-` names, by so many workers.
fn answer_by_workers<T: Threads + Wait + Sync>(
    threads: &T,
    rt: &HostRuntime,
    path: &str,
    count: Number<'_>,
) -> ExitCode {
    match count {
        Number::Plain(count) if count > 0 => {
            code_of_workers(rt, path, run_beside(threads, rt, path, count as usize))
        }
        Number::Plain(_) => ExitCode::from(BAD_COMMAND_LINE),
        Number::Signed(word) => refuse_number(rt, "--workers <N>", word),
    }
}

fn run_or_hint(rt: &HostRuntime, script: Script<'_>) -> ExitCode {
    if script.has_hints {
        answer_script_with_hints(rt, script.path)
    } else {
        answer_script(rt, script.path)
    }
}

fn audit_or_hint(rt: &HostRuntime, script: Script<'_>) -> ExitCode {
    if script.has_hints {
        answer_history_with_hints(rt, script.path)
    } else {
        answer_history(rt, script.path)
    }
}

fn explain_or_hint(rt: &HostRuntime, script: Script<'_>, line: Number<'_>) -> ExitCode {
    let number = match line {
        Number::Plain(number) => number,
        Number::Signed(word) => return refuse_number(rt, "<LINE>", word),
    };
    if script.has_hints {
        answer_line_with_hints(rt, script.path, number)
    } else {
        answer_line(rt, script.path, number)
    }
}

fn invoke<T: Threads + Wait + Sync>(
    threads: &T,
    rt: &HostRuntime,
    invocation: Invocation<'_>,
) -> ExitCode {
    match invocation {
        Invocation::Run(script) => run_or_hint(rt, script),
        Invocation::RunWorkers(path, count) => answer_by_workers(threads, rt, path, count),
        Invocation::Explain(script, line) => explain_or_hint(rt, script, line),
        Invocation::Audit(script) => audit_or_hint(rt, script),
        Invocation::Token(digits) => answer_token(rt, digits),
    }
}

fn refuse(rt: &HostRuntime, error: &Error) -> ExitCode {
    if error.kind() == ErrorKind::OutOfMemory {
        return no_memory(rt);
    }
    let printed = error.print(rt);
    if error.use_stderr() {
        return ExitCode::from(BAD_COMMAND_LINE);
    }
    // the help or the version, which standard output may not take
    if printed.is_err() {
        report(rt, ScriptFault::CannotWrite, "");
        return ExitCode::from(FAULT);
    }
    ExitCode::SUCCESS
}

fn answer<T: Threads + Wait + Sync>(threads: &T, rt: &HostRuntime, words: &[String]) -> ExitCode {
    let Ok(verbs) = help_text(rt.alloc()) else {
        return no_memory(rt);
    };
    let Ok(command) = command(rt.alloc(), verbs.as_str()) else {
        return no_memory(rt);
    };
    match command.try_get_matches_from(words) {
        Ok(matches) => match Invocation::of(&matches) {
            Some(invocation) => invoke(threads, rt, invocation),
            None => ExitCode::from(BAD_COMMAND_LINE),
        },
        Err(error) => refuse(rt, &error),
    }
}

fn main(rt: HostRuntime) -> ExitCode {
    let words = match env::args(&rt) {
        Ok(words) => words,
        Err(error) if error.kind() == io::ErrorKind::OutOfMemory => return no_memory(&rt),
        Err(_) => {
            let _ = eprintln!(rt; "hdfsns: an argument is not UTF-8");
            return ExitCode::from(BAD_COMMAND_LINE);
        }
    };
    match words.collect::<Vec<String>>(rt.alloc()) {
        Ok(words) => answer(&rt, &rt, words.as_slice()),
        Err(_) => no_memory(&rt),
    }
}
