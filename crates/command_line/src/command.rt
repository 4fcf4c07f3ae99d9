use clap::{Arg, ArgAction, Command, value_parser};
use std::alloc::{AllocError, Global};

/// The program's version, and the one line that `rt version` prints of the kit that proves and builds it.
const VERSION: &str = "1.0.0 (rattle-kit-13f)";

fn script<'a>(alloc: Global) -> Arg<'a> {
    Arg::new(alloc, "SCRIPT")
        .help("The script: a file, or - for standard input")
        .required(true)
}

fn hints<'a>(alloc: Global, help: &'a str) -> Arg<'a> {
    Arg::new(alloc, "hints")
        .long("hints")
        .action(ArgAction::SetTrue)
        .help(help)
}

// The hints on lines that are answered `bad`.
fn hints_on_lines<'a>(alloc: Global) -> Arg<'a> {
    hints(
        alloc,
        "Also says on standard error what is wrong with each ill-formed line",
    )
}

fn workers<'a>(alloc: Global) -> Result<Arg<'a>, AllocError> {
    Arg::new(alloc, "workers")
        .long("workers")
        .value_name("N")
        .value_parser(value_parser!(u32).range(1..=64))
        .help(
            "Has 1 to 64 threads ask the requests beside each other, each caller's in their order; lines of DataNodes are bad then",
        )
        .conflicts_with("hints")
}

// What has several arguments or subcommands is made by functions that hand on each at once: one that owns a command, and may return early while it
// owns another part, takes far longer to prove.
fn with_two<'a>(
    command: Command<'a>,
    first: Arg<'a>,
    last: Arg<'a>,
) -> Result<Command<'a>, AllocError> {
    command.arg(first)?.arg(last)
}

fn with_three<'a>(
    command: Command<'a>,
    first: Arg<'a>,
    second: Arg<'a>,
    last: Arg<'a>,
) -> Result<Command<'a>, AllocError> {
    with_two(command, first, second)?.arg(last)
}

fn with_subcommand<'a>(
    command: Command<'a>,
    subcommand: Result<Command<'a>, AllocError>,
) -> Result<Command<'a>, AllocError> {
    command.subcommand(subcommand?)
}

fn run_command<'a>(alloc: Global, verbs: &'a str) -> Result<Command<'a>, AllocError> {
    let workers = workers(alloc)?;
    let start = Command::new(alloc, "run")
        .about("Runs a script, and prints an answer for each line")
        .after_help(verbs);
    with_three(start, script(alloc), hints_on_lines(alloc), workers)
}

fn line<'a>(alloc: Global) -> Arg<'a> {
    Arg::new(alloc, "LINE")
        .help("The line's number; all lines count, from 1 on")
        .required(true)
        .value_parser(value_parser!(u32).range(1..))
}

fn explain_command<'a>(alloc: Global) -> Result<Command<'a>, AllocError> {
    let hints = hints(
        alloc,
        "Also says on standard error what the answer leaves open, such as why a line is no request",
    );
    let start = Command::new(alloc, "explain").about(
        "Runs the lines before a line, and prints each need of its request up to the first that fails",
    );
    with_three(start, script(alloc), line(alloc), hints)
}

fn audit_command<'a>(alloc: Global) -> Result<Command<'a>, AllocError> {
    let start = Command::new(alloc, "audit").about(
        "Runs a script, and prints the history of its requests: for each an object of JSON on a line of its own",
    );
    with_two(start, script(alloc), hints_on_lines(alloc))
}

fn digits<'a>(alloc: Global) -> Arg<'a> {
    Arg::new(alloc, "HEX")
        .help("The token's bytes in hexadecimal digits")
        .required(true)
}

fn token_command<'a>(alloc: Global) -> Result<Command<'a>, AllocError> {
    Command::new(alloc, "token")
        .about("Prints what a block access token says")
        .arg(digits(alloc))
}

/// The command line of the program, with the help on the verbs of scripts behind that of `run`.
///
/// # Errors
/// Out of memory.
pub fn command<'a>(alloc: Global, verbs: &'a str) -> Result<Command<'a>, AllocError> {
    let start = Command::new(alloc, "hdfsns")
        .about("The namesystem of HDFS, proved")
        .version(VERSION)
        .subcommand_required(true);
    let runs = with_subcommand(start, run_command(alloc, verbs))?;
    let explains = with_subcommand(runs, explain_command(alloc))?;
    let audits = with_subcommand(explains, audit_command(alloc))?;
    with_subcommand(audits, token_command(alloc))
}
