ghost use Rattle.std.specs.Prelude.{◌≡◌, ◌++◌, OnOk};
ghost use Rattle.std.specs.Fmt.{decimal};
ghost use Rattle.std.specs.String.{string_bytes};

use itoa::Buffer;
use std::alloc::AllocError;

/// Adds a number in decimal.
///
/// # Errors
/// Out of memory.
pub fn push_number(number: u64, line: &mut String) -> Result<(), AllocError>
    ensures { OnOk result (string_bytes line.new ≡ string_bytes line.old ++ decimal number) }
{
    line.push_str(Buffer::new().format(number))
}

/// Adds a number in decimal behind its word.
///
/// # Errors
/// Out of memory.
pub fn print_number(word: &str, number: u64, line: &mut String) -> Result<(), AllocError>
    ensures { OnOk result (string_bytes line.new ≡ string_bytes line.old ++ (word.now ++ decimal number)) }
{
    line.push_str(word)?;
    push_number(number, line)
}
