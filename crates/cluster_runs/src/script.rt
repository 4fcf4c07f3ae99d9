ghost use Rattle.std.specs.Prelude.{◌≡◌, ◌≢◌, ℕ, IfOk, OnOk, OnErr, IfSome, map};
ghost use Rattle.std.specs.Io.KnownBytes.{Appends, Keeps};
ghost use Rattle.std.specs.String.{string_bytes};
ghost use Rattle.std.specs.Str.{IsUtf8};
ghost use Rattle.script_runs.specs.Channel.{AppendsFront};
ghost use Rattle.script_words.specs.Words as words;
ghost use Rattle.cluster_runs.specs.Output as spec;
ghost use Rattle.cluster_runs.specs.Laws.{IsAnsweredRightly};
ghost use Rattle.cluster_runs.specs.Shown.{Shows, ShowsFirst};
ghost use Rattle.cluster_runs.specs.Ended.{IsAnswersOfFirst, AppendsAnswersOfFirst};

use crate::laws::scripts_are_runs;
use crate::session::Session;
use script_runs::channel::write_text;
use script_runs::script::read_script;
pub use script_runs::script::{ScriptFault, Status};
use std::alloc::{AllocError, Global};
use std::io::{Read, Write};

/// Runs the lines of a script from its beginning. Where memory runs out, the session has counted those before, and holds what they
/// print.
///
/// # Errors
/// Out of memory.
pub fn run_lines(session: &mut Session, lines: &[&str]) -> Result<(), AllocError>
    requires { Shows spec.no_lines session.old }
    ensures ok { OnOk result (Shows (spec.after_lines (map (λ line. line.now) lines.now)) session.new) }
    ensures err { OnErr result (ShowsFirst spec.no_lines (map (λ line. line.now) lines.now) session.new) }
{
    session.serve_all(lines)
}

/// Runs the lines of a text behind those that were run. Where memory runs out, the session has counted those before, and holds what
/// they print.
///
/// # Errors
/// Out of memory, or more lines than numbers of 64 bits.
pub fn run_more(session: &mut Session, text: &str) -> Result<(), AllocError>
    ensures ok { (state : spec.State) → Shows state session.old → OnOk result (Shows (spec.behind_lines state (words.lines_of text.now)) session.new) }
    ensures err { (state : spec.State) → Shows state session.old → OnErr result (ShowsFirst state (words.lines_of text.now) session.new) }
{
    session.serve_text(text)
}

/// Runs a script on a cluster in which nothing has happened. Where memory runs out, the session has counted the lines before, and holds
/// what they print.
fn run_text(session: &mut Session, script: &str) -> Result<Status, AllocError>
    requires { Shows spec.no_lines session.old }
    ensures ok { OnOk result (string_bytes session.new.out ≡ spec.output_of script.now) }
    ensures status { IfOk result (λ status. status ≡ spec.script_status (spec.answers_of script.now)) }
    ensures right { OnOk result (IsAnsweredRightly script.now) }
    ensures err { OnErr result (IsAnswersOfFirst session.new.number script.now (string_bytes session.new.out)) }
{
    session.serve_text(script)?;
    session.is_right();
    scripts_are_runs();
    Ok(Status::by(session.has_bad()))
}

/// What a script prints, and how it ended. Where memory ran out, the text is what the lines that were run print.
#[derive(Drop)]
struct ScriptRun {
    /// How many lines were run.
    served: usize,
    text: String,
    ended: Result<Status, AllocError>,
}

/// Runs a script on a cluster of its own.
fn run_alone(alloc: Global, script: &str) -> Result<ScriptRun, AllocError>
    ensures ok { IfOk result (λ ran. OnOk ran.ended (string_bytes ran.text ≡ spec.output_of script.now)) }
    ensures status { IfOk result (λ ran. IfOk ran.ended (λ status. status ≡ spec.script_status (spec.answers_of script.now))) }
    ensures right { IfOk result (λ ran. OnOk ran.ended (IsAnsweredRightly script.now)) }
    ensures err { IfOk result (λ ran. OnErr ran.ended (IsAnswersOfFirst ran.served script.now (string_bytes ran.text))) }
{
    let mut session = Session::open(alloc)?;
    let ended = run_text(&mut session, script);
    Ok(ScriptRun {
        served: session.number(),
        text: session.into_output(),
        ended,
    })
}

/// Reads a script whole, runs its lines on a cluster of a NameNode and the DataNodes 1 to 8, and writes what they print and nothing else.
/// Linear in the script beside what the requests and calls cost.
///
/// # Errors
/// `CannotRead` where the reader fails, or hasn't ended after 4,294,967,295 reads, and `NotUtf8`: nothing is written.
/// `OutOfMemory`: the answers of the first `served` lines are written, all of them, and nothing else. `CannotWrite`: a front of the
/// text is written.
pub fn run_script<R: Read, W: Write>(
    alloc: Global,
    reader: &mut R,
    writer: &mut W,
) -> Result<Status, ScriptFault>
    ensures ok { IfOk result (λ status. IfSome (R.remaining reader.old) (λ script. IsUtf8 script × Appends (W.contents writer.old) (W.contents writer.new) (spec.output_of script) × (status ≡ spec.script_status (spec.answers_of script)))) }
    ensures right { IfOk result (λ status. IfSome (R.remaining reader.old) (λ script. IsAnsweredRightly script)) }
    ensures unread { result ≡ Err ScriptFault.CannotRead → Keeps (W.contents writer.old) (W.contents writer.new) }
    ensures not_text { result ≡ Err ScriptFault.NotUtf8 → Keeps (W.contents writer.old) (W.contents writer.new) × IfSome (R.remaining reader.old) (λ script. ¬ (IsUtf8 script)) }
    ensures no_memory { (served : ℕ) → result ≡ Err (ScriptFault.OutOfMemory served) → IfSome (R.remaining reader.old) (λ script. AppendsAnswersOfFirst served (W.contents writer.old) (W.contents writer.new) script) }
    ensures unwritten { result ≡ Err ScriptFault.CannotWrite → IfSome (R.remaining reader.old) (λ script. AppendsFront (W.contents writer.old) (W.contents writer.new) (spec.output_of script)) }
{
    let script = match read_script(alloc, reader) {
        Ok(script) => script,
        Err(fault) => return Err(fault),
    };
    let Ok(ran) = run_alone(alloc, &script) else {
        return Err(ScriptFault::OutOfMemory { served: 0 });
    };
    write_text(writer, ran.text.as_bytes()).map_err(|_| ScriptFault::CannotWrite)?;
    match ran.ended {
        Ok(status) => Ok(status),
        Err(_) => Err(ScriptFault::OutOfMemory { served: ran.served }),
    }
}
