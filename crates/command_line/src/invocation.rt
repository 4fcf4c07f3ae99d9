use clap::ArgMatches;

/// What the program is called to do.
pub enum Invocation<'a> {
    /// To answer the lines of a script.
    Run(Script<'a>),
    /// To have so many workers ask the requests of the script of this path beside each other.
    RunWorkers(&'a str, Number<'a>),
    /// To print the needs of a line of a script.
    Explain(Script<'a>, Number<'a>),
    /// To print the history of a script.
    Audit(Script<'a>),
    /// To print what a token of these hexadecimal digits says.
    Token(&'a str),
}

/// A script that is to be run.
#[derive(Clone, Copy)]
pub struct Script<'a> {
    /// A file, or `-` for standard input.
    pub path: &'a str,
    /// Whether hints are to be printed too.
    pub has_hints: bool,
}

/// A number, as it was given: that of a line, or of workers.
#[derive(Clone, Copy)]
pub enum Number<'a> {
    /// In digits alone.
    Plain(u32),
    /// Digits with a sign before them, which `clap` reads as a number.
    Signed(&'a str),
}

// The script of a subcommand, if it is the one that was called.
fn script_of<'a>(matches: &'a ArgMatches, subcommand: &str) -> Option<Script<'a>> {
    let found = matches.subcommand_matches(subcommand)?;
    Some(Script {
        path: found.get_str("SCRIPT")?,
        has_hints: found.get_flag("hints"),
    })
}

// A number that a subcommand was given, if it was.
fn number_of<'a>(found: &'a ArgMatches, name: &str) -> Option<Number<'a>> {
    let digits = found.get_str(name)?;
    if !digits.as_bytes().iter().all(|byte| byte.is_ascii_digit()) {
        return Some(Number::Signed(digits));
    }
    match found.get_one::<u32>(name) {
        Some(number) => Some(Number::Plain(number)),
        // `clap` has read it as a number
        None => Some(Number::Signed(digits)),
    }
}

// How many workers are to run a script, if that is asked for.
fn workers_of<'a>(matches: &'a ArgMatches) -> Option<Number<'a>> {
    number_of(matches.subcommand_matches("run")?, "workers")
}

// The number of the line that is to be explained.
fn line_of<'a>(matches: &'a ArgMatches) -> Option<Number<'a>> {
    number_of(matches.subcommand_matches("explain")?, "LINE")
}

// What is asked for where a script is to be run.
fn run_of<'a>(matches: &'a ArgMatches, script: Script<'a>) -> Invocation<'a> {
    match workers_of(matches) {
        Some(count) => Invocation::RunWorkers(script.path, count),
        None => Invocation::Run(script),
    }
}

// The digits of the token that is to be printed.
fn token_of<'a>(matches: &'a ArgMatches) -> Option<&'a str> {
    matches.subcommand_matches("token")?.get_str("HEX")
}

impl<'a> Invocation<'a> {
    /// What a command line that `clap` has taken apart asks for; nothing where it names no subcommand, which `clap` refuses before.
    pub fn of(matches: &'a ArgMatches) -> Option<Invocation<'a>> {
        if let Some(script) = script_of(matches, "run") {
            return Some(run_of(matches, script));
        }
        if let Some(script) = script_of(matches, "explain") {
            return Some(Invocation::Explain(script, line_of(matches)?));
        }
        if let Some(script) = script_of(matches, "audit") {
            return Some(Invocation::Audit(script));
        }
        Some(Invocation::Token(token_of(matches)?))
    }
}
