ghost use Rattle.std.specs.Prelude.{◌≡◌, ◌≢◌, ℕ, IfOk, IfSome};
ghost use Rattle.std.specs.String.{string_bytes};
ghost use Rattle.std.specs.Str.{IsUtf8};
ghost use Rattle.script_runs.specs.Status as spec;

use crate::channel::{ReadFault, read_all};
use std::alloc::Global;
use std::io::Read;
use thiserror::Error;

/// How a script ended that was run to its end.
#[derive(Clone, Copy, Debug, PartialEq, Eq)]
pub enum Status {
    /// No line was ill-formed, whatever was answered.
    Clean,
    /// A line was ill-formed.
    IllFormed,
}

impl Status {
    /// How a script ends with or without an ill-formed line.
    pub fn by(has_bad: bool) -> Status
        ensures { result ≡ spec.status_by has_bad }
    {
        if has_bad {
            Status::IllFormed
        } else {
            Status::Clean
        }
    }
}

/// Why a script was not run to its end, or not all that it prints was written.
#[derive(Clone, Copy, Debug, PartialEq, Eq, Error)]
pub enum ScriptFault {
    /// Memory ran out. Of a script that is answered, `served` is how many of its first lines were run: what they are answered is written.
    /// Of a history that is printed, it is how many of its first entries have their lines written: memory ran out as the script was run,
    /// or as the text was made, also where all lines of the script were run. `explain` writes nothing then, and says 0.
    #[error("out of memory")]
    OutOfMemory { served: usize },
    /// The script can't be opened, or its reader fails, or hasn't ended after 4,294,967,295 reads.
    #[error("cannot read")]
    CannotRead,
    /// The script as a whole isn't UTF-8.
    #[error("not UTF-8")]
    NotUtf8,
    /// The writer doesn't take all of the text, or can't be flushed.
    #[error("cannot write")]
    CannotWrite,
}

/// The text of a script, read whole.
///
/// # Errors
/// `CannotRead` where the reader fails, or hasn't ended after 4,294,967,295 reads, `NotUtf8`, and `OutOfMemory` behind no line.
pub fn read_script<R: Read>(alloc: Global, reader: &mut R) -> Result<String, ScriptFault>
    ensures ok { IfOk result (λ script. IfSome (R.remaining reader.old) (λ input. string_bytes script ≡ input)) }
    ensures not_text { result ≡ Err ScriptFault.NotUtf8 → IfSome (R.remaining reader.old) (λ input. ¬ (IsUtf8 input)) }
    ensures read_only { result ≢ Err ScriptFault.CannotWrite }
    ensures unserved { (served : ℕ) → result ≡ Err (ScriptFault.OutOfMemory served) → served ≡ 0 }
{
    let bytes = match read_all(alloc, reader) {
        Ok(bytes) => bytes,
        Err(ReadFault::OutOfMemory) => return Err(ScriptFault::OutOfMemory { served: 0 }),
        Err(ReadFault::CannotRead) => return Err(ScriptFault::CannotRead),
    };
    match String::from_utf8(bytes) {
        Ok(script) => Ok(script),
        Err(_) => Err(ScriptFault::NotUtf8),
    }
}
