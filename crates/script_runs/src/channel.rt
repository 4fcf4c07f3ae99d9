ghost use Rattle.std.specs.Prelude.{◌≡◌, ◌≤◌, length, IfOk, IfSome, OnOk};
ghost use Rattle.std.specs.Io.KnownBytes.{Appends, WriteAppends};
ghost use Rattle.script_runs.specs.Channel.{AppendsFront};

use std::alloc::Global;
use std::io::{ErrorKind, Read, Write};

/// Why not all was read.
#[derive(Clone, Copy, PartialEq, Eq)]
pub enum ReadFault {
    OutOfMemory,
    /// The reader failed, or hasn't ended after 4,294,967,295 reads.
    CannotRead,
}

/// All that the reader has left. A read that was interrupted is tried again.
///
/// # Errors
/// `CannotRead` where the reader fails otherwise, or hasn't ended after 4,294,967,295 reads, and `OutOfMemory`.
pub fn read_all<R: Read>(alloc: Global, reader: &mut R) -> Result<Vec<u8>, ReadFault>
    ensures { IfOk result (λ bytes. IfSome (R.remaining reader.old) (λ input. bytes.items ≡ input)) }
{
    let mut bytes = Vec::new(alloc);
    let mut chunk = [0u8; 8192];
    for _turn in 0..u32::MAX {
        let count = match reader.read(&mut chunk) {
            Ok(0) => return Ok(bytes),
            Ok(count) => count,
            Err(error) if error.kind() == ErrorKind::Interrupted => continue,
            Err(_) => return Err(ReadFault::CannotRead),
        };
        if bytes.extend_from_slice(&chunk[..count]).is_err() {
            return Err(ReadFault::OutOfMemory);
        }
    }
    Err(ReadFault::CannotRead)
}

/// The writer didn't take all, or wasn't flushed.
#[derive(Clone, Copy, PartialEq, Eq)]
pub struct WriteFault;

/// Writes some bytes, and none where the call was interrupted.
fn write_some<W: Write>(writer: &mut W, text: &[u8]) -> Result<usize, WriteFault>
    ensures within { IfOk result (λ count. count ≤ length text.now) }
    ensures written { WriteAppends (W.contents writer.old) (W.contents writer.new) result text.now }
{
    match writer.write(text) {
        Ok(0) => Err(WriteFault),
        Ok(count) => Ok(count),
        Err(error) if error.kind() == ErrorKind::Interrupted => Ok(0),
        Err(_) => Err(WriteFault),
    }
}

/// Writes the text, and flushes the writer. A write that was interrupted is tried again.
///
/// # Errors
/// Where a write takes nothing or fails otherwise, where the flush fails, and where the writer hasn't taken all after 2^64 - 1 writes. A
/// front of the text is written then, and nothing else.
pub fn write_text<W: Write>(writer: &mut W, text: &[u8]) -> Result<(), WriteFault>
    ensures all { OnOk result (Appends (W.contents writer.old) (W.contents writer.new) text.now) }
    ensures front { AppendsFront (W.contents writer.old) (W.contents writer.new) text.now }
{
    let mut at = 0;
    for _turn in 0..u64::MAX {
        if at == text.len() {
            return writer.flush().map_err(|_| WriteFault);
        }
        let (_, rest) = text.split_at(at);
        at += write_some(writer, rest)?;
    }
    Err(WriteFault)
}
