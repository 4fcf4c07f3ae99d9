ghost use Rattle.std.specs.Prelude.{◌≡◌, [], ◌∷◌, ◌++◌, Some, codes, IfOk, IfSome, OnOk};
ghost use Rattle.std.specs.Option.{option_copied, option_map};
ghost use Rattle.std.specs.Str.{IsUtf8};
ghost use Rattle.std.specs.String.{string_bytes};
ghost use Rattle.audit_text.specs.AuditText as spec;
ghost use Rattle.audit_text.specs.JsonText.{object_text};
ghost use Rattle.audit_text.specs.Tokens.{Tells, TellsObject};

use crate::asked::asked_of;
use file_paths::path::Path;
use flat_rows::verdict::Verdict;
use hdfs_types::op::Request;
use history::entry::HistoryEntry;
use json::Writer;
use std::alloc::{AllocError, Global};
use std::{fmt, str};

/// Adds a member that is a text.
fn put_text(writer: &mut Writer, key: &str, text: &str) -> Result<(), AllocError>
    ensures { OnOk result (Tells writer.old writer.new (Some (spec.text_at key.now text.now) ∷ [])) }
{
    writer.key(key)?;
    writer.string(text)
}

/// Adds a member that is a number.
fn put_number(writer: &mut Writer, key: &str, number: u64) -> Result<(), AllocError>
    ensures { OnOk result (Tells writer.old writer.new (Some (spec.number_member key.now number) ∷ [])) }
{
    writer.key(key)?;
    writer.u64(number)
}

/// Adds a member that is the text of a value, which is formatted in `shown`.
fn put_shown<T: fmt::Display>(
    writer: &mut Writer,
    shown: &mut String,
    key: &str,
    value: &T,
) -> Result<(), AllocError>
    ensures { IfSome (T.output value.now) (λ text. OnOk result (Tells writer.old writer.new (Some (spec.text_at key.now text) ∷ []))) }
{
    shown.clear();
    write!(shown, "{value}")?;
    put_text(writer, key, shown.as_str())
}

/// Adds a member that is a path, where there is one.
fn put_path(
    writer: &mut Writer,
    shown: &mut String,
    key: &str,
    path: Option<&Path>,
) -> Result<(), AllocError>
    ensures { OnOk result (Tells writer.old writer.new (option_map (spec.path_at key.now) (option_copied path.entry) ∷ [])) }
{
    match path {
        Some(path) => put_shown(writer, shown, key, path),
        None => Ok(()),
    }
}

/// Adds what a line tells of a denial before the caller: where it was, and what decided.
fn put_denied(writer: &mut Writer, shown: &mut String, verdict: &Verdict) -> Result<(), AllocError>
    ensures { OnOk result (Tells writer.old writer.new (option_map (spec.path_at (codes "at")) (spec.denied_at verdict.now) ∷ option_map (spec.text_at (codes "by")) (spec.denied_by verdict.now) ∷ [])) }
{
    match verdict {
        Verdict::Denied(denial) => {
            put_shown(writer, shown, "at", denial.path())?;
            put_shown(writer, shown, "by", denial.by())
        }
        _ => Ok(()),
    }
}

/// Adds the number of a refusal.
fn put_code(writer: &mut Writer, verdict: &Verdict) -> Result<(), AllocError>
    ensures { OnOk result (Tells writer.old writer.new (option_map (spec.number_member (codes "code")) (spec.refused_code verdict.now) ∷ [])) }
{
    match verdict {
        Verdict::Refused(refusal) => put_number(writer, "code", u64::from(refusal.code())),
        _ => Ok(()),
    }
}

/// Adds the need that was denied.
fn put_need(writer: &mut Writer, shown: &mut String, verdict: &Verdict) -> Result<(), AllocError>
    ensures { OnOk result (Tells writer.old writer.new (option_map (spec.text_at (codes "need")) (spec.denied_need verdict.now) ∷ [])) }
{
    match verdict {
        Verdict::Denied(denial) => put_shown(writer, shown, "need", denial.need()),
        _ => Ok(()),
    }
}

/// The word for how a request was answered.
fn verdict_word(verdict: &Verdict) -> &'static str
    ensures { result.now ≡ spec.verdict_word verdict.now }
{
    match verdict {
        Verdict::Done(_) => "done",
        Verdict::Denied(_) => "denied",
        Verdict::Refused(_) => "refused",
    }
}

/// Adds the members from the first one to the moment.
fn put_front(
    writer: &mut Writer,
    shown: &mut String,
    request: &Request,
    verdict: &Verdict,
) -> Result<(), AllocError>
    ensures { OnOk result (Tells writer.old writer.new (spec.told_front request.now verdict.now)) }
{
    put_denied(writer, shown, verdict)?;
    put_text(writer, "caller", request.caller.as_str())?;
    put_code(writer, verdict)?;
    put_number(writer, "moment", request.moment.milliseconds())
}

/// Adds the members behind the moment.
fn put_rest(writer: &mut Writer, shown: &mut String, entry: &HistoryEntry) -> Result<(), AllocError>
    ensures { OnOk result (Tells writer.old writer.new (spec.told_rest entry.now)) }
{
    let asked = asked_of(&entry.request.op);
    put_need(writer, shown, &entry.verdict)?;
    put_text(writer, "op", asked.name)?;
    put_path(writer, shown, "path", asked.path)?;
    put_number(writer, "place", entry.place)?;
    put_path(writer, shown, "to", asked.to)?;
    put_text(writer, "verdict", verdict_word(&entry.verdict))
}

/// Adds the object of an entry.
fn put_entry(
    writer: &mut Writer,
    shown: &mut String,
    entry: &HistoryEntry,
) -> Result<(), AllocError>
    ensures { OnOk result (TellsObject writer.old writer.new (spec.told_of entry.now)) }
{
    writer.begin_object()?;
    put_front(writer, shown, &entry.request, &entry.verdict)?;
    put_rest(writer, shown, entry)?;
    writer.end_object()
}

/// The object of an entry, in memory whose contents are thrown away.
fn object_of(
    mut line: Vec<u8>,
    shown: &mut String,
    entry: &HistoryEntry,
) -> Result<Vec<u8>, AllocError>
    ensures text { IfOk result (λ line. line.items ≡ object_text (spec.members_of entry.now)) }
    ensures utf8 { IfOk result (λ line. IsUtf8 line.items) }
{
    line.clear();
    let mut writer = Writer::new(line);
    put_entry(&mut writer, shown, entry)?;
    Ok(writer.into_inner())
}

/// Adds the line of an entry, made in `line`, which is handed back.
fn push_line(
    line: Vec<u8>,
    shown: &mut String,
    entry: &HistoryEntry,
    out: &mut String,
) -> Result<Vec<u8>, AllocError>
    ensures { OnOk result (string_bytes out.new ≡ string_bytes out.old ++ spec.entry_line entry.now) }
{
    let line = object_of(line, shown, entry)?;
    out.push_str(unsafe { str::from_utf8_unchecked(&line) })?;
    out.push('\n')?;
    Ok(line)
}

/// The lines of these entries, the oldest first, each an object of JSON: who asked for what and when, and how it was answered. Linear in
/// the text.
///
/// # Errors
/// Out of memory.
pub fn audit_lines(alloc: Global, entries: &[HistoryEntry]) -> Result<String, AllocError>
    ensures { IfOk result (λ text. string_bytes text ≡ spec.audit_text entries.now) }
{
    let mut out = String::new(alloc);
    let mut shown = String::new(alloc);
    let mut line = Vec::new(alloc);
    for entry in entries {
        line = push_line(line, &mut shown, entry, &mut out)?;
    }
    Ok(out)
}
