ghost use Rattle.std.specs.Prelude.{◌≡◌, ◌≢◌, ◌≤◌, ℕ, length, take, drop, Ok, Err, IfOk, IfSome, OnOk, OnErr};
ghost use Rattle.std.specs.Io.KnownBytes.{Appends, Keeps};
ghost use Rattle.std.specs.Str.{IsUtf8};
ghost use Rattle.script_runs.specs.Channel.{AppendsFront};
ghost use Rattle.cluster_runs.specs.Output.{script_status, answers_of};
ghost use Rattle.audit_text.specs.AuditText.{audit_text};
ghost use Rattle.cluster_runs.specs.Audit as spec;
ghost use Rattle.cluster_runs.specs.Audit.{AppendsFirst};
ghost use Rattle.cluster_runs.specs.Recorded.{AreFirstOf};

use crate::recording::Recording;
use audit_text::lines::audit_lines;
use history::entry::HistoryEntry;
use script_runs::channel::write_text;
use script_runs::script::{ScriptFault, Status, read_script};
use std::alloc::{AllocError, Global};
use std::io::{Read, Write};
use std::mem;

/// How many entries a batch has at most: the lines of so many are made before they are written.
const BATCH: usize = 256;

/// The next batch of entries, behind so many that are done.
fn batch_behind(entries: &[HistoryEntry], done: usize) -> &[HistoryEntry]
    requires { done ≤ length entries.now }
    ensures { result.now ≡ take 256 (drop done entries.now) }
{
    let (_, rest) = entries.split_at(done);
    let (batch, _) = rest.split_at(BATCH.min(rest.len()));
    batch
}

/// Writes the lines of a batch of entries, behind so many that are done. Where memory runs out, nothing of the batch is written, and the
/// fault says how many were done.
fn write_batch<W: Write>(
    alloc: Global,
    writer: &mut W,
    batch: &[HistoryEntry],
    done: usize,
) -> Result<(), ScriptFault>
    ensures ok { OnOk result (Appends (W.contents writer.old) (W.contents writer.new) (audit_text batch.now)) }
    ensures no_memory { (count : ℕ) → result ≡ Err (ScriptFault.OutOfMemory count) → (count ≡ done) × Keeps (W.contents writer.old) (W.contents writer.new) }
    ensures unwritten { result ≡ Err ScriptFault.CannotWrite → AppendsFront (W.contents writer.old) (W.contents writer.new) (audit_text batch.now) }
    ensures write_only { (result ≢ Err ScriptFault.CannotRead) × (result ≢ Err ScriptFault.NotUtf8) }
{
    let Ok(text) = audit_lines(alloc, batch) else {
        return Err(ScriptFault::OutOfMemory { served: done });
    };
    write_text(writer, text.as_bytes()).map_err(|_| ScriptFault::CannotWrite)
}

/// Writes the lines of the entries, a batch of entries at a time.
fn write_entries<W: Write>(
    alloc: Global,
    writer: &mut W,
    entries: &[HistoryEntry],
) -> Result<(), ScriptFault>
    ensures ok { OnOk result (Appends (W.contents writer.old) (W.contents writer.new) (audit_text entries.now)) }
    ensures no_memory { (count : ℕ) → result ≡ Err (ScriptFault.OutOfMemory count) → AppendsFirst count (W.contents writer.old) (W.contents writer.new) entries.now }
    ensures unwritten { result ≡ Err ScriptFault.CannotWrite → AppendsFront (W.contents writer.old) (W.contents writer.new) (audit_text entries.now) }
    ensures write_only { (result ≢ Err ScriptFault.CannotRead) × (result ≢ Err ScriptFault.NotUtf8) }
{
    let mut done = 0;
    while done < entries.len() {
        let batch = batch_behind(entries, done);
        match write_batch(alloc, writer, batch, done) {
            Ok(()) => done += batch.len(),
            Err(fault) => return Err(fault),
        }
    }
    Ok(())
}

/// A script that was recorded, and how it ended.
#[derive(Drop)]
struct RecordedRun {
    recording: Recording,
    ended: Result<Status, AllocError>,
}

/// Records a script on a cluster of its own. Where memory ran out, the entries of the lines before are held.
fn record_script(alloc: Global, script: &str) -> Result<RecordedRun, AllocError>
    ensures ok { IfOk result (λ recorded. OnOk recorded.ended (spec.history_after recorded.recording.world ≡ spec.history_of_script script.now)) }
    ensures status { IfOk result (λ recorded. IfOk recorded.ended (λ status. status ≡ script_status (answers_of script.now))) }
    ensures err { IfOk result (λ recorded. OnErr recorded.ended (AreFirstOf (spec.history_of_script script.now) (spec.history_after recorded.recording.world))) }
{
    let mut recording = Recording::open(alloc)?;
    let ended = recording.run(script);
    Ok(RecordedRun { recording, ended })
}

/// Writes the lines of all entries that were recorded, and answers how the script ended. Where memory ran out as it was run, though not
/// for these lines, the fault says how many entries there are: the lines of all are written.
fn write_recorded<W: Write>(
    alloc: Global,
    writer: &mut W,
    recorded: &RecordedRun,
) -> Result<Status, ScriptFault>
    ensures ok { IfOk result (λ status. (recorded.now.ended ≡ Ok status) × Appends (W.contents writer.old) (W.contents writer.new) (audit_text (spec.history_after recorded.now.recording.world))) }
    ensures no_memory { (count : ℕ) → result ≡ Err (ScriptFault.OutOfMemory count) → AppendsFirst count (W.contents writer.old) (W.contents writer.new) (spec.history_after recorded.now.recording.world) }
    ensures unwritten { result ≡ Err ScriptFault.CannotWrite → AppendsFront (W.contents writer.old) (W.contents writer.new) (audit_text (spec.history_after recorded.now.recording.world)) }
    ensures write_only { (result ≢ Err ScriptFault.CannotRead) × (result ≢ Err ScriptFault.NotUtf8) }
{
    let entries = recorded.recording.history();
    if let Err(fault) = write_entries(alloc, writer, entries) {
        return Err(fault);
    }
    match recorded.ended {
        Ok(status) => Ok(status),
        Err(_) => Err(ScriptFault::OutOfMemory {
            served: entries.len(),
        }),
    }
}

/// Reads a script whole, runs its lines on a cluster of a NameNode and the DataNodes 1 to 8, and writes the history that they make at the
/// NameNode, a line of JSON for each entry, the oldest first, and nothing else. Linear in the script and the text beside what the requests
/// and calls cost; of the text at most 256 lines are held at a time. The cluster isn't taken apart, and its memory stays allocated: a
/// program that has audited a script ends soon, which gives all memory back at once.
///
/// # Errors
/// `CannotRead` where the reader fails, or hasn't ended after 4,294,967,295 reads, and `NotUtf8`: nothing is written.
/// `OutOfMemory`: the lines of the first `served` entries are written, all of them, and nothing else; it comes where memory runs out as
/// the script is run, and also where all its lines were run and there is none for the text. `CannotWrite`: a front of the text is
/// written.
pub fn audit<R: Read, W: Write>(
    alloc: Global,
    reader: &mut R,
    writer: &mut W,
) -> Result<Status, ScriptFault>
    ensures ok { IfOk result (λ status. IfSome (R.remaining reader.old) (λ script. IsUtf8 script × Appends (W.contents writer.old) (W.contents writer.new) (spec.audit_of script) × (status ≡ script_status (answers_of script)))) }
    ensures unread { result ≡ Err ScriptFault.CannotRead → Keeps (W.contents writer.old) (W.contents writer.new) }
    ensures not_text { result ≡ Err ScriptFault.NotUtf8 → Keeps (W.contents writer.old) (W.contents writer.new) × IfSome (R.remaining reader.old) (λ script. ¬ (IsUtf8 script)) }
    ensures no_memory { (count : ℕ) → result ≡ Err (ScriptFault.OutOfMemory count) → IfSome (R.remaining reader.old) (λ script. AppendsFirst count (W.contents writer.old) (W.contents writer.new) (spec.history_of_script script)) }
    ensures unwritten { result ≡ Err ScriptFault.CannotWrite → IfSome (R.remaining reader.old) (λ script. AppendsFront (W.contents writer.old) (W.contents writer.new) (spec.audit_of script)) }
{
    let script = read_script(alloc, reader)?;
    let Ok(recorded) = record_script(alloc, &script) else {
        return Err(ScriptFault::OutOfMemory { served: 0 });
    };
    let ended = write_recorded(alloc, writer, &recorded);
    mem::forget(recorded);
    ended
}
