ghost use Rattle.std.specs.Prelude.{◌<◌, length};

use crate::dice::Dice;
use grant_ledger::ledger::LedgerRow;
use std::alloc::AllocError;

// A question mark stands for one of the numbers 1 to 3, and a B for a block of which a token was granted.
static REQUESTS: [&str; 16] = [
    "dn-? heartbeat",
    "dn-? heartbeat",
    "dn-? heartbeat",
    "alice create /d/f? 644 1",
    "alice create /d/f? 644 3 over",
    "alice addblock /d/f?",
    "alice addblock /d/f?",
    "alice addblock /d/f? B 1",
    "alice complete /d/f? B 1",
    "alice complete /d/f? B 1",
    "bob open /d/f?",
    "bob open /d/f?",
    "carl open /d/f?",
    "alice setrep /d/f? ?",
    "alice delete /d/f?",
    "hdfs rollkey 1616161616161616161616161616161616161616",
];

// A call of a DataNode: its verb, and what stands behind the block and its stamp.
static CALLS: [(&str, &str); 8] = [
    ("begin", "-"),
    ("begin", "1"),
    ("packet", "0 61 -"),
    ("packet", "0 61 2"),
    ("finalize", "1 -"),
    ("finalize", "1 3"),
    ("read", "0 1"),
    ("read", "0 1"),
];

// One of the rows, rather a late one.
fn row_index(rows: &[LedgerRow], dice: &mut Dice) -> usize
    requires { 0 < length rows.now }
    ensures { result < length rows.now }
{
    let count = rows.len() as u64;
    dice.below(count).max(dice.below(count)) as usize
}

fn block_in(rows: &[LedgerRow], dice: &mut Dice) -> u64 {
    if rows.is_empty() {
        return 1;
    }
    rows[row_index(rows, dice)].grant.block.get()
}

fn write_request(rows: &[LedgerRow], dice: &mut Dice, line: &mut String) -> Result<(), AllocError> {
    let request = REQUESTS[dice.below(16) as usize];
    for letter in request.chars() {
        match letter {
            '?' => write!(line, "{}", 1 + dice.below(3))?,
            'B' => write!(line, "{}", block_in(rows, dice))?,
            _ => line.push(letter)?,
        }
    }
    Ok(())
}

// A call that presents some token, seldom in another's name or for another block.
fn write_call(rows: &[LedgerRow], dice: &mut Dice, line: &mut String) -> Result<(), AllocError> {
    if rows.is_empty() {
        return write_request(rows, dice, line);
    }
    let index = row_index(rows, dice);
    let grant = &rows[index].grant;
    let mut user = grant.user.as_str();
    if dice.below(8) == 0 {
        user = "bob";
    }
    let mut block = grant.block.get();
    if dice.below(8) == 0 {
        block = 1 + dice.below(5);
    }
    let (verb, others) = CALLS[dice.below(8) as usize];
    let node = 1 + dice.below(3);
    let stamp = block.wrapping_add(1000);
    write!(
        line,
        "{user} @{node} {verb} {block} {stamp} {others} #{}",
        index + 1
    )
}

/// Writes what stands behind the moment of the next line of a script, where so many messages were sent before.
///
/// # Errors
/// Out of memory.
pub fn write_line(
    rows: &[LedgerRow],
    dice: &mut Dice,
    sent: u64,
    line: &mut String,
) -> Result<(), AllocError> {
    match dice.below(4) {
        0 => write!(line, "- deliver {}", 1 + dice.below(sent.max(1))),
        1 => write_request(rows, dice, line),
        _ => write_call(rows, dice, line),
    }
}

/// Milliseconds to the next line: mostly fewer than 100, and seldom any number below `leap`.
pub fn pause(dice: &mut Dice, leap: u64) -> u64
    requires { 0 < leap }
{
    if dice.below(32) == 0 {
        return dice.below(leap);
    }
    dice.below(100)
}
