use crate::made::{all_make, are_bad_lines, made};
use std::alloc::{AllocError, Global};
use std::test::Fail;

/// Each verb with a word too few and a word too many. The words are ill-formed too, which is judged later.
static COUNTS: [&str; 28] = [
    "",
    "0",
    "0 a:b",
    "x a:b ls",
    "0 a:b ls /.. /..",
    "0 a:b du",
    "0 a:b du /.. /..",
    "0 a:b stat",
    "0 a:b stat /.. /..",
    "0 a:b mkdirs /..",
    "0 a:b mkdirs /.. 888 888",
    "0 a:b delete",
    "0 a:b delete /.. recursive recursive",
    "0 a:b rename /..",
    "0 a:b rename /.. /.. /..",
    "0 a:b chmod /..",
    "0 a:b chmod /.. 888 888",
    "0 a:b chown /.. a:b",
    "0 a:b chown /.. a:b a:b a:b",
    "0 a:b adduser a:b",
    "0 a:b adduser a:b a:b a:b",
    "0 a:b groups a:b",
    "0 a:b groups a:b a:b a:b",
    "0 a:b move /.. /..",
    "0 a:b LS /..",
    "0 a:b l /..",
    "0 a:b lss /..",
    "0 a:b list /..",
];

#[test]
fn counts_of_words_come_first(rt: HostRuntime) -> Result<(), Fail> {
    are_bad_lines(&rt, &COUNTS)
}

/// Words that are ill-formed, alone and before another.
static FAULTS: [(&str, &str); 40] = [
    ("x a:b ls /..", "0 BadLine"),
    ("0 a:b ls /..", "19 BadName"),
    ("0 ann ls /..", "1 BadPath"),
    ("0 ann du a", "1 BadPath"),
    ("0 ann du //", "1 BadPath"),
    ("x a:b delete /..", "0 BadLine"),
    ("0 ann delete /..", "1 BadPath"),
    ("0 ann delete /a nonsense", "0 BadLine"),
    ("0 ann delete /a Recursive", "0 BadLine"),
    ("0 ann delete /a recursively", "0 BadLine"),
    ("0 ann delete /a recursiv", "0 BadLine"),
    ("0 ann delete /.. nonsense", "1 BadPath"),
    ("0 ann delete /.. recursive", "1 BadPath"),
    ("0 a:b delete /a nonsense", "19 BadName"),
    ("0 ann rename /.. /b", "1 BadPath"),
    ("0 ann rename /a b", "1 BadPath"),
    ("0 a:b rename /.. b", "19 BadName"),
    ("0 ann chmod /.. 888", "1 BadPath"),
    ("0 ann chmod /a 888", "20 BadMode"),
    ("0 ann chmod /a 2000", "20 BadMode"),
    ("0 ann chmod /a -", "20 BadMode"),
    ("0 ann chown /.. a:b c:d", "1 BadPath"),
    ("0 ann chown /a a:b -", "19 BadName"),
    ("0 ann chown /a - c,d", "19 BadName"),
    ("0 ann chown /a b/c -", "19 BadName"),
    ("0 ann adduser a:b g1", "19 BadName"),
    ("0 ann adduser a,b g1", "19 BadName"),
    ("0 ann adduser bob a,,b", "19 BadName"),
    ("0 ann adduser bob ,", "19 BadName"),
    ("0 ann adduser bob a,", "19 BadName"),
    ("0 ann adduser bob ,a", "19 BadName"),
    ("0 ann adduser bob a:b", "19 BadName"),
    ("0 ann adduser bob a,b/c", "19 BadName"),
    ("0 ann groups a:b g1", "19 BadName"),
    ("0 ann groups bob a,,b", "19 BadName"),
    ("0 ann groups bob a:b,c", "19 BadName"),
    ("x ann groups bob a,,b", "0 BadLine"),
    ("-1 ann rename /.. b", "0 BadLine"),
    ("4611686018427387905 a:b chown /.. - -", "0 BadLine"),
    ("x ann chmod /a 888", "0 BadLine"),
];

#[test]
fn the_first_ill_formed_word_counts(rt: HostRuntime) -> Result<(), Fail> {
    all_make(&rt, &FAULTS)
}

/// A line with a group whose name has so many bytes.
fn line_with_group(alloc: Global, length: u32) -> Result<String, AllocError> {
    let mut line = String::from_str(alloc, "0 hdfs groups bob ")?;
    for _ in 0..length {
        line.push_str("g")?;
    }
    Ok(line)
}

fn push_groups(line: &mut String) -> Result<(), AllocError> {
    for _ in 0..300 {
        line.push_str(",h")?;
    }
    Ok(())
}

fn made_with_group(alloc: Global, length: u32) -> Result<String, AllocError> {
    let line = line_with_group(alloc, length)?;
    made(alloc, line.as_str())
}

fn made_with_groups(alloc: Global) -> Result<String, AllocError> {
    let mut line = line_with_group(alloc, 255)?;
    push_groups(&mut line)?;
    made(alloc, line.as_str())
}

fn has_front(alloc: Global, length: u32, front: &str) -> Result<bool, AllocError> {
    let made = made_with_group(alloc, length)?;
    Ok(made.as_str().starts_with(front))
}

fn is_made(alloc: Global, length: u32, want: &str) -> Result<bool, AllocError> {
    let made = made_with_group(alloc, length)?;
    Ok(made.as_str() == want)
}

fn has_end(alloc: Global, end: &str) -> Result<bool, AllocError> {
    let made = made_with_groups(alloc)?;
    Ok(made.as_str().ends_with(end))
}

/// A group's name has at most 255 bytes; the list as a whole has no limit.
#[test]
fn lists_of_groups_have_no_limit(rt: HostRuntime) -> Result<(), Fail> {
    assert!(rt; has_front(rt.alloc(), 255, "0 hdfs SetGroups bob |ggg")?);
    assert!(rt; is_made(rt.alloc(), 256, "19 BadName")?);
    assert!(rt; has_end(rt.alloc(), "|h|h")?);
    Ok(())
}
