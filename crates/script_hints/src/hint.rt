ghost use Rattle.std.specs.Prelude.{◌≡◌, IfOk};
ghost use Rattle.std.specs.Option.{option_map};
ghost use Rattle.std.specs.Result.{result_err};
ghost use Rattle.script_hints.specs.Hints as spec;
ghost use Rattle.cluster_text.specs.EventLine.{event_of};
ghost use Rattle.script_words.specs.Words.{words_of};

use cluster_text::event_line::read_event;
use grant_ledger::ledger::LedgerRow;
use hdfs_values::fault::{AclFault, IllFormed};
use line_hints::acl_hint::{AclHint, acl_hint};
use line_hints::line_hint::{LineHint, line_hint};
use line_hints::mode_hint::{ModeHint, mode_hint};
use line_hints::name_hint::{NameHint, name_hint};
use line_hints::path_hint::{PathHint, path_hint};
use script_words::words::{is_skipped, without_return, words_in};
use std::alloc::{AllocError, Global};
use std::fmt;

/// What is wrong with an ill-formed line, and what was expected. There is one kind for each answer that such a line gets.
#[derive(Clone, Copy)]
pub enum Hint<'a> {
    /// The line is answered `bad 0 BadLine`.
    Line(LineHint<'a>),
    /// The line is answered `bad 1 BadPath`.
    Path(PathHint<'a>),
    /// The line is answered `bad 9 BadAcl` with this fault.
    Acl(AclFault, AclHint<'a>),
    /// The line is answered `bad 19 BadName`.
    Name(NameHint<'a>),
    /// The line is answered `bad 20 BadMode`.
    Mode(ModeHint<'a>),
}

impl fmt::Display for Hint<'_> {
    fn fmt<W: fmt::Write>(&self, f: &mut fmt::Formatter<W>) -> fmt::Result {
        match self {
            Hint::Line(hint) => write!(f, "{hint}"),
            Hint::Path(hint) => write!(f, "{hint}"),
            Hint::Acl(_, hint) => write!(f, "{hint}"),
            Hint::Name(hint) => write!(f, "{hint}"),
            Hint::Mode(hint) => write!(f, "{hint}"),
        }
    }
}

/// How a line is ill-formed, where it is.
fn fault_of(
    alloc: Global,
    ledger: &[LedgerRow],
    line: &str,
) -> Result<Option<IllFormed>, AllocError>
    ensures { IfOk result (λ fault. fault ≡ result_err (event_of ledger.now (words_of line.now))) }
{
    Ok(read_event(alloc, ledger, line)?.err())
}

/// The hint on words that are ill-formed in this way, where so many tokens were granted before.
fn hint_on<'a>(
    alloc: Global,
    fault: IllFormed,
    granted: usize,
    words: &[&'a str],
) -> Result<Hint<'a>, AllocError>
    ensures { IfOk result (λ hint. spec.fault_of hint ≡ fault) }
{
    match fault {
        IllFormed::BadLine => Ok(Hint::Line(line_hint(granted, words))),
        IllFormed::BadPath => Ok(Hint::Path(path_hint(alloc, words)?)),
        IllFormed::BadAcl(fault) => Ok(Hint::Acl(fault, acl_hint(alloc, fault, words)?)),
        IllFormed::BadName => Ok(Hint::Name(name_hint(words))),
        IllFormed::BadMode => Ok(Hint::Mode(mode_hint(words))),
    }
}

/// The hint on a line, where these tokens were granted before: there is one exactly where the line makes no event, and it is for the
/// answer that the line gets. Which word it names is only tested.
///
/// # Errors
/// Out of memory.
pub fn hint_of<'a>(
    alloc: Global,
    ledger: &[LedgerRow],
    line: &'a str,
) -> Result<Option<Hint<'a>>, AllocError>
    ensures { IfOk result (λ hint. option_map spec.fault_of hint ≡ result_err (event_of ledger.now (words_of line.now))) }
{
    match fault_of(alloc, ledger, line)? {
        Some(fault) => {
            let words = words_in(alloc, line)?;
            Ok(Some(hint_on(alloc, fault, ledger.len(), &words)?))
        }
        None => Ok(None),
    }
}

/// The hint on a line of a script, which may end in a carriage return, where these tokens were granted before; an empty line and a
/// comment get none.
///
/// # Errors
/// Out of memory.
pub fn hint_in<'a>(
    alloc: Global,
    ledger: &[LedgerRow],
    line: &'a str,
) -> Result<Option<Hint<'a>>, AllocError>
    ensures { IfOk result (λ hint. option_map spec.fault_of hint ≡ spec.fault_in ledger.now line.now) }
{
    let line = without_return(line);
    if is_skipped(line) {
        return Ok(None);
    }
    hint_of(alloc, ledger, line)
}
