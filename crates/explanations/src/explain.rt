ghost use Rattle.std.specs.Prelude.{◌≡◌, ◌+◌, List, ℕ, IfOk, IfSome, Err, Some, drop, map, take};
ghost use Rattle.std.specs.Io.KnownBytes.{Appends, Keeps};
ghost use Rattle.std.specs.Option.{option_copied};
ghost use Rattle.std.specs.String.{string_bytes};
ghost use Rattle.std.specs.Str.{IsUtf8};
ghost use Rattle.flat_rows.specs.Decision.{trail as trail_said};
ghost use Rattle.flat_rows.specs.DenialText.{trail_text};
ghost use Rattle.script_runs.specs.Channel.{AppendsFront};
ghost use Rattle.explanations.specs.Explanation as spec;
ghost use Rattle.cluster_core.specs.World.{state_after};
ghost use Rattle.cluster_runs.specs.Output as output;
ghost use Rattle.cluster_runs.specs.Shown.{Shows};

use cluster_runs::script::run_lines;
use cluster_runs::session::Session;
use file_paths::path::Path;
use flat_rows::trail::{Judged, text_of, trail};
use hdfs_types::op::Request;
use inode_tree::tree::Tree;
use namespace_rows::rows::Rows;
use script_runs::channel::write_text;
use script_runs::script::{ScriptFault, Status, read_script};
use script_text::line::read_line;
use script_words::words::{is_skipped, pieces_between, without_return};
use std::alloc::{AllocError, Global};
use std::io::{Read, Write};

/// What was found at the line that was to be explained.
#[derive(Clone, Copy, PartialEq, Eq)]
pub enum Explained {
    /// A request, whose needs were printed; and how the lines before it ended.
    Trail(Status),
    /// No request: there is no such line, or it is empty, a comment, ill-formed, a call of a DataNode or a delivery. Nothing was printed.
    NoRequest,
}

/// The request of a line, where it makes one.
///
/// # Errors
/// Out of memory.
pub fn request_in(alloc: Global, line: &str) -> Result<Option<Request>, AllocError>
    ensures { IfOk result (λ request. request ≡ spec.request_in line.now) }
{
    let line = without_return(line);
    if is_skipped(line) {
        return Ok(None);
    }
    Ok(read_line(alloc, line)?.ok())
}

/// What is printed of a line, and what was found there.
#[derive(Drop)]
struct Explanation {
    found: Explained,
    text: String,
}

/// The tree as a flat list of rows, in path order. Costs the whole tree.
///
/// # Errors
/// Out of memory.
pub fn rows_of(alloc: Global, tree: &Tree) -> Result<Rows, AllocError>
    ensures { IfOk result (λ rows. rows ≡ tree.now) }
{
    let rows = tree.rows_under(&Path::root(alloc))?;
    // a call on the tree tells the prover that its rows are a namespace, as `from_vec` requires
    let _root = tree.root();
    Ok(Rows::from_vec(rows))
}

/// The needs of a request that are judged behind the lines that were run. Costs the whole namespace.
///
/// # Errors
/// Out of memory.
pub fn trail_on(
    alloc: Global,
    session: &Session,
    request: &Request,
) -> Result<Vec<Judged>, AllocError>
    ensures { IfOk result (λ needs. needs.items ≡ spec.trail_on session.now.world.opening.name (state_after session.now.world).entries request.now) }
{
    let core = session.world().core();
    let rows = rows_of(alloc, core.tree())?;
    let users = core.users();
    let needs = trail(alloc, &rows, users, &request.caller, &request.op);
    drop(rows);
    needs
}

/// What is printed of the needs of a request.
fn needs_text(alloc: Global, session: &Session, request: &Request) -> Result<String, AllocError>
    ensures { IfOk result (λ text. string_bytes text ≡ trail_text (spec.trail_on session.now.world.opening.name (state_after session.now.world).entries request.now)) }
{
    let needs = trail_on(alloc, session, request)?;
    let text = text_of(alloc, &needs);
    drop(needs);
    text
}

/// Runs the lines before a request, and prints its needs.
fn explain_request(
    alloc: Global,
    session: &mut Session,
    before: &[&str],
    request: &Request,
) -> Result<Explanation, AllocError>
    requires { Shows output.no_lines session.old }
    ensures text { IfOk result (λ explanation. string_bytes explanation.text ≡ spec.explanation_by (output.after_lines (map (λ line. line.now) before.now)) (Some request.now)) }
    ensures found { IfOk result (λ explanation. explanation.found ≡ Explained.Trail (output.script_status (output.after_lines (map (λ line. line.now) before.now)).answers)) }
{
    run_lines(session, before)?;
    Ok(Explanation {
        found: Explained::Trail(Status::by(session.has_bad())),
        text: needs_text(alloc, session, request)?,
    })
}

/// Explains a request behind these lines.
fn explain_alone(
    alloc: Global,
    before: &[&str],
    request: &Request,
) -> Result<Explanation, AllocError>
    ensures text { IfOk result (λ explanation. string_bytes explanation.text ≡ spec.explanation_by (output.after_lines (map (λ line. line.now) before.now)) (Some request.now)) }
    ensures found { IfOk result (λ explanation. explanation.found ≡ Explained.Trail (output.script_status (output.after_lines (map (λ line. line.now) before.now)).answers)) }
{
    let mut session = Session::open(alloc)?;
    let explained = explain_request(alloc, &mut session, before, request);
    drop(session.into_output());
    explained
}

/// The request of the first of these lines, where it makes one.
fn first_request(alloc: Global, lines: &[&str]) -> Result<Option<Request>, AllocError>
    ensures { IfOk result (λ request. request ≡ spec.request_in_first (map (λ line. line.now) lines.now)) }
{
    match lines.first() {
        Some(line) => request_in(alloc, line),
        None => Ok(None),
    }
}

/// Explains the line behind so many.
fn explain_behind(alloc: Global, lines: &[&str], before: usize) -> Result<Explanation, AllocError>
    ensures text { IfOk result (λ explanation. string_bytes explanation.text ≡ spec.explanation_behind before (map (λ line. line.now) lines.now)) }
    ensures found { IfOk result (λ explanation. explanation.found ≡ spec.found_behind before (map (λ line. line.now) lines.now)) }
{
    let (done, left) = lines.split_at(before.min(lines.len()));
    match first_request(alloc, left)? {
        Some(request) => {
            let explained = explain_alone(alloc, done, &request);
            drop(request);
            explained
        }
        None => Ok(Explanation {
            found: Explained::NoRequest,
            text: String::new(alloc),
        }),
    }
}

/// Explains a line; the first has the number 1.
fn explain_line(alloc: Global, script: &str, number: u32) -> Result<Explanation, AllocError>
    ensures text { IfOk result (λ explanation. string_bytes explanation.text ≡ spec.explanation number script.now) }
    ensures found { IfOk result (λ explanation. explanation.found ≡ spec.found_at_line number script.now) }
{
    if number == 0 {
        return Ok(Explanation {
            found: Explained::NoRequest,
            text: String::new(alloc),
        });
    }
    let lines = pieces_between(alloc, script, '\n')?;
    explain_behind(alloc, &lines, (number - 1) as usize)
}

/// Reads a script whole, runs the lines before the one of this number, which counts all lines from 1, and prints each need of
/// its request that is judged, in their order, up to the first that fails; then `granted` where none failed. Lines behind it
/// aren't looked at. Costs the lines before it, and the whole namespace that they leave.
///
/// # Errors
/// `CannotRead` where the reader fails, or hasn't ended after 4,294,967,295 reads, `NotUtf8` and `OutOfMemory`: nothing is
/// written. `CannotWrite`: a front of the text is written.
pub fn explain<R: Read, W: Write>(
    alloc: Global,
    reader: &mut R,
    number: u32,
    writer: &mut W,
) -> Result<Explained, ScriptFault>
    ensures ok { IfOk result (λ found. IfSome (R.remaining reader.old) (λ script. IsUtf8 script × Appends (W.contents writer.old) (W.contents writer.new) (spec.explanation number script) × (found ≡ spec.found_at_line number script))) }
    ensures unread { result ≡ Err ScriptFault.CannotRead → Keeps (W.contents writer.old) (W.contents writer.new) }
    ensures not_text { result ≡ Err ScriptFault.NotUtf8 → Keeps (W.contents writer.old) (W.contents writer.new) × IfSome (R.remaining reader.old) (λ script. ¬ (IsUtf8 script)) }
    ensures no_memory { (served : ℕ) → result ≡ Err (ScriptFault.OutOfMemory served) → Keeps (W.contents writer.old) (W.contents writer.new) × (served ≡ 0) }
    ensures unwritten { result ≡ Err ScriptFault.CannotWrite → IfSome (R.remaining reader.old) (λ script. AppendsFront (W.contents writer.old) (W.contents writer.new) (spec.explanation number script)) }
{
    let script = read_script(alloc, reader)?;
    let Ok(explanation) = explain_line(alloc, &script, number) else {
        return Err(ScriptFault::OutOfMemory { served: 0 });
    };
    write_text(writer, explanation.text.as_bytes()).map_err(|_| ScriptFault::CannotWrite)?;
    Ok(explanation.found)
}
