//! Where the files are whose last block is unfinished or recovered.

use crate::texts::are_texts;
use file_paths::path::Path;
use hdfs_values::ids::BlockId;
use open_file_paths::open_paths::OpenPaths;
use std::alloc::Global;
use std::fmt::Write;
use std::test::Fail;

// What is noted of blocks and of directories.
#[derive(Clone, Copy)]
enum Noted {
    // the block is at this path: for the first time, or since its file was moved there
    At(u64, &'static str),
    // still at this path
    Kept(u64, &'static str),
    Ended(u64),
    // its file is
    Deleted(u64),
    // from here to there
    DirectoryMoved(&'static str, &'static str),
}

fn note_at(alloc: Global, paths: &mut OpenPaths, block: u64, path: &str) -> Result<(), Fail> {
    paths.note_block(&Path::parse(alloc, path)?, BlockId::new(block));
    Ok(())
}

fn keep_at(alloc: Global, paths: &mut OpenPaths, block: u64, path: &str) -> Result<(), Fail> {
    paths.keep_block(&Path::parse(alloc, path)?, BlockId::new(block));
    Ok(())
}

fn move_to(alloc: Global, paths: &mut OpenPaths, from: &str, to: &str) -> Result<(), Fail> {
    paths.move_directory(&Path::parse(alloc, from)?, &Path::parse(alloc, to)?);
    Ok(())
}

fn note(alloc: Global, paths: &mut OpenPaths, noted: Noted) -> Result<(), Fail> {
    match noted {
        Noted::At(block, path) => note_at(alloc, paths, block, path),
        Noted::Kept(block, path) => keep_at(alloc, paths, block, path),
        Noted::Ended(block) => Ok(paths.end_block(BlockId::new(block))),
        Noted::Deleted(block) => Ok(paths.delete(&[], &[], &[BlockId::new(block)])),
        Noted::DirectoryMoved(from, to) => move_to(alloc, paths, from, to),
    }
}

// Writes where the blocks below a number are, each with a blank behind it, and a stop behind all.
fn tell(paths: &OpenPaths, bound: u64, text: &mut String) -> Result<(), Fail> {
    for block in 0..bound {
        if let Some(path) = paths.of_block(BlockId::new(block)) {
            write!(text, "{block} at {path} ")?;
        }
    }
    Ok(text.push('.')?)
}

// Notes what happens, and writes behind each where the blocks are.
fn told(alloc: Global, table: &[(Noted, &str)]) -> Result<String, Fail> {
    let mut paths = OpenPaths::new(alloc);
    let mut text = String::new(alloc);
    for (noted, _) in table {
        note(alloc, &mut paths, *noted)?;
        paths.update_blocks();
        tell(&paths, 9, &mut text)?;
    }
    Ok(text)
}

// Notes what happens, and writes only behind all of it where the blocks are.
fn tell_late(alloc: Global, table: &[(Noted, &str)], text: &mut String) -> Result<(), Fail> {
    let mut paths = OpenPaths::new(alloc);
    for (noted, _) in table {
        note(alloc, &mut paths, *noted)?;
    }
    paths.update_blocks();
    tell(&paths, 9, text)
}

// Writes that of the first thing that happens, of the first two, and so on: what `told` writes, but that no path was brought up to date before.
fn told_late(alloc: Global, table: &[(Noted, &str)]) -> Result<String, Fail> {
    let mut text = String::new(alloc);
    for (last, _) in table.iter().enumerate() {
        if let Some(first) = table.get(..=last) {
            tell_late(alloc, first, &mut text)?;
        }
    }
    Ok(text)
}

// Whether the blocks are told where they are to be, where paths are brought up to date behind each thing that happens.
fn are_known_at_once(alloc: Global, table: &[(Noted, &str)]) -> Result<bool, Fail> {
    let text = told(alloc, table)?;
    Ok(are_texts(table, text.as_str()))
}

// The same where they are brought up to date behind all that happens.
fn are_known_late(alloc: Global, table: &[(Noted, &str)]) -> Result<bool, Fail> {
    let text = told_late(alloc, table)?;
    Ok(are_texts(table, text.as_str()))
}

fn are_known(alloc: Global, table: &[(Noted, &str)]) -> Result<bool, Fail> {
    Ok(are_known_at_once(alloc, table)? && are_known_late(alloc, table)?)
}

// A directory is moved with what is beneath it, and not with what has a name that begins alike; and a file is moved.
static MOVED: [(Noted, &str); 7] = [
    (Noted::At(1, "/a/b"), "1 at /a/b ."),
    (Noted::At(2, "/a/c/d"), "1 at /a/b 2 at /a/c/d ."),
    (Noted::At(3, "/a-b"), "1 at /a/b 2 at /a/c/d 3 at /a-b ."),
    (
        Noted::At(4, "/ab"),
        "1 at /a/b 2 at /a/c/d 3 at /a-b 4 at /ab .",
    ),
    (
        Noted::DirectoryMoved("/a", "/x/y"),
        "1 at /x/y/b 2 at /x/y/c/d 3 at /a-b 4 at /ab .",
    ),
    (
        Noted::At(4, "/c"),
        "1 at /x/y/b 2 at /x/y/c/d 3 at /a-b 4 at /c .",
    ),
    (
        Noted::DirectoryMoved("/x/y/c", "/e"),
        "1 at /x/y/b 2 at /e/d 3 at /a-b 4 at /c .",
    ),
];

#[test]
fn blocks_are_known_where_they_are_moved_to(rt: HostRuntime) -> Result<(), Fail> {
    assert!(rt; are_known(rt.alloc(), &MOVED)?);
    Ok(())
}

// Blocks are noted before a move and behind it, the latter where the others were; files are moved out of a directory before that is moved.
static BEFORE_AND_BEHIND: [(Noted, &str); 10] = [
    (Noted::At(1, "/a/b"), "1 at /a/b ."),
    (Noted::At(2, "/a/c"), "1 at /a/b 2 at /a/c ."),
    (Noted::DirectoryMoved("/a", "/x"), "1 at /x/b 2 at /x/c ."),
    (Noted::At(3, "/a/b"), "1 at /x/b 2 at /x/c 3 at /a/b ."),
    (Noted::At(1, "/e"), "1 at /e 2 at /x/c 3 at /a/b ."),
    (
        Noted::DirectoryMoved("/x", "/y"),
        "1 at /e 2 at /y/c 3 at /a/b .",
    ),
    (
        Noted::DirectoryMoved("/a", "/x"),
        "1 at /e 2 at /y/c 3 at /x/b .",
    ),
    (Noted::At(1, "/x/c"), "1 at /x/c 2 at /y/c 3 at /x/b ."),
    (Noted::At(3, "/a/b"), "1 at /x/c 2 at /y/c 3 at /a/b ."),
    (
        Noted::DirectoryMoved("/x", "/z"),
        "1 at /z/c 2 at /y/c 3 at /a/b .",
    ),
];

#[test]
fn blocks_are_known_before_and_behind_a_move(rt: HostRuntime) -> Result<(), Fail> {
    assert!(rt; are_known(rt.alloc(), &BEFORE_AND_BEHIND)?);
    Ok(())
}

// Directories are moved into one another, and to where others were; blocks are noted and end between.
static MOVED_OFTEN: [(Noted, &str); 11] = [
    (Noted::At(1, "/a/b/f"), "1 at /a/b/f ."),
    (Noted::At(2, "/a/g"), "1 at /a/b/f 2 at /a/g ."),
    (Noted::DirectoryMoved("/a", "/x"), "1 at /x/b/f 2 at /x/g ."),
    (Noted::DirectoryMoved("/x/b", "/a"), "1 at /a/f 2 at /x/g ."),
    (Noted::At(3, "/x/b/h"), "1 at /a/f 2 at /x/g 3 at /x/b/h ."),
    (
        Noted::DirectoryMoved("/x", "/y"),
        "1 at /a/f 2 at /y/g 3 at /y/b/h .",
    ),
    (
        Noted::DirectoryMoved("/a", "/x"),
        "1 at /x/f 2 at /y/g 3 at /y/b/h .",
    ),
    (Noted::Ended(2), "1 at /x/f 3 at /y/b/h ."),
    (
        Noted::DirectoryMoved("/y/b", "/x/b"),
        "1 at /x/f 3 at /x/b/h .",
    ),
    (Noted::Ended(1), "3 at /x/b/h ."),
    (Noted::DirectoryMoved("/x", "/w"), "3 at /w/b/h ."),
];

#[test]
fn blocks_are_known_behind_all_moves(rt: HostRuntime) -> Result<(), Fail> {
    assert!(rt; are_known(rt.alloc(), &MOVED_OFTEN)?);
    Ok(())
}

// A directory is moved and moved back, once as it is and once from above; then to beneath another one, which is moved itself, and back to the
// place where it was at first; and one is moved to beneath the place where it was.
static MOVED_BACK: [(Noted, &str); 12] = [
    (Noted::At(1, "/a/b/f"), "1 at /a/b/f ."),
    (Noted::At(2, "/d/g"), "1 at /a/b/f 2 at /d/g ."),
    (Noted::DirectoryMoved("/a/b", "/c"), "1 at /c/f 2 at /d/g ."),
    (
        Noted::DirectoryMoved("/c", "/a/b"),
        "1 at /a/b/f 2 at /d/g .",
    ),
    (Noted::DirectoryMoved("/a", "/c"), "1 at /c/b/f 2 at /d/g ."),
    (Noted::DirectoryMoved("/c/b", "/a"), "1 at /a/f 2 at /d/g ."),
    (
        Noted::DirectoryMoved("/a", "/d/e"),
        "1 at /d/e/f 2 at /d/g .",
    ),
    (
        Noted::DirectoryMoved("/d", "/k/m"),
        "1 at /k/m/e/f 2 at /k/m/g .",
    ),
    (
        Noted::DirectoryMoved("/k/m/e", "/a/b"),
        "1 at /a/b/f 2 at /k/m/g .",
    ),
    (
        Noted::DirectoryMoved("/k/m", "/d"),
        "1 at /a/b/f 2 at /d/g .",
    ),
    (Noted::DirectoryMoved("/d", "/t"), "1 at /a/b/f 2 at /t/g ."),
    (
        Noted::DirectoryMoved("/t", "/d/d"),
        "1 at /a/b/f 2 at /d/d/g .",
    ),
];

#[test]
fn blocks_are_known_behind_a_move_back(rt: HostRuntime) -> Result<(), Fail> {
    assert!(rt; are_known(rt.alloc(), &MOVED_BACK)?);
    Ok(())
}

// A block is kept where it is: as it was noted, and behind a move; at another path, also at that where it was before the move; and where it
// wasn't noted, or not any more.
static KEPT: [(Noted, &str); 13] = [
    (Noted::At(1, "/a/b"), "1 at /a/b ."),
    (Noted::Kept(1, "/a/b"), "1 at /a/b ."),
    (Noted::DirectoryMoved("/a", "/x"), "1 at /x/b ."),
    (Noted::Kept(1, "/x/b"), "1 at /x/b ."),
    (Noted::Kept(2, "/c"), "1 at /x/b 2 at /c ."),
    (Noted::Kept(1, "/a/b"), "1 at /a/b 2 at /c ."),
    (Noted::DirectoryMoved("/x", "/z"), "1 at /a/b 2 at /c ."),
    (Noted::DirectoryMoved("/a", "/x"), "1 at /x/b 2 at /c ."),
    (Noted::Kept(1, "/x/b"), "1 at /x/b 2 at /c ."),
    (Noted::Ended(1), "2 at /c ."),
    (Noted::Kept(1, "/x/b"), "1 at /x/b 2 at /c ."),
    (Noted::DirectoryMoved("/x", "/y"), "1 at /y/b 2 at /c ."),
    (Noted::Kept(1, "/x/b"), "1 at /x/b 2 at /c ."),
];

#[test]
fn blocks_are_kept_where_they_are(rt: HostRuntime) -> Result<(), Fail> {
    assert!(rt; are_known(rt.alloc(), &KEPT)?);
    Ok(())
}

// A block ends, another one is deleted; also such as aren't noted, or not any more; and both are noted anew.
static ENDED: [(Noted, &str); 12] = [
    (Noted::Ended(1), "."),
    (Noted::Deleted(1), "."),
    (Noted::At(1, "/a/b"), "1 at /a/b ."),
    (Noted::At(2, "/a/c"), "1 at /a/b 2 at /a/c ."),
    (Noted::At(3, "/a/d"), "1 at /a/b 2 at /a/c 3 at /a/d ."),
    (Noted::Deleted(8), "1 at /a/b 2 at /a/c 3 at /a/d ."),
    (Noted::Ended(1), "2 at /a/c 3 at /a/d ."),
    (Noted::Deleted(3), "2 at /a/c ."),
    (Noted::Deleted(1), "2 at /a/c ."),
    (Noted::Ended(3), "2 at /a/c ."),
    (Noted::At(3, "/e"), "2 at /a/c 3 at /e ."),
    (Noted::At(1, "/a/c"), "1 at /a/c 2 at /a/c 3 at /e ."),
];

#[test]
fn blocks_are_known_until_they_end_or_are_deleted(rt: HostRuntime) -> Result<(), Fail> {
    assert!(rt; are_known(rt.alloc(), &ENDED)?);
    Ok(())
}

// Directories are moved where no block is noted: one that is noted behind such a move isn't moved by it, nor by those before.
static NONE_NOTED: [(Noted, &str); 12] = [
    (Noted::DirectoryMoved("/a", "/x"), "."),
    (Noted::At(1, "/a/b"), "1 at /a/b ."),
    (Noted::DirectoryMoved("/a", "/x"), "1 at /x/b ."),
    (Noted::Ended(1), "."),
    (Noted::At(2, "/a/c"), "2 at /a/c ."),
    (Noted::DirectoryMoved("/x", "/y"), "2 at /a/c ."),
    (Noted::Deleted(2), "."),
    (Noted::DirectoryMoved("/a", "/y"), "."),
    (Noted::At(3, "/a/d"), "3 at /a/d ."),
    (Noted::At(4, "/x/c"), "3 at /a/d 4 at /x/c ."),
    (Noted::DirectoryMoved("/a", "/z"), "3 at /z/d 4 at /x/c ."),
    (Noted::DirectoryMoved("/x", "/a"), "3 at /z/d 4 at /a/c ."),
];

#[test]
fn blocks_are_known_behind_moves_where_none_was_noted(rt: HostRuntime) -> Result<(), Fail> {
    assert!(rt; are_known(rt.alloc(), &NONE_NOTED)?);
    Ok(())
}

// Tells where two blocks are, of which one path is brought up to date before the other one is, and stays so.
fn tell_in_turn(alloc: Global, paths: &mut OpenPaths, text: &mut String) -> Result<(), Fail> {
    note_at(alloc, paths, 1, "/a/b")?;
    note_at(alloc, paths, 2, "/a/c")?;
    move_to(alloc, paths, "/a", "/x")?;
    tell(paths, 9, text)?;
    paths.update_block(BlockId::new(1));
    paths.update_block(BlockId::new(3));
    tell(paths, 9, text)?;
    move_to(alloc, paths, "/x", "/y")?;
    paths.update_block(BlockId::new(2));
    tell(paths, 9, text)?;
    paths.update_blocks();
    tell(paths, 9, text)
}

fn is_told_in_turn(alloc: Global, wanted: &str) -> Result<bool, Fail> {
    let mut paths = OpenPaths::new(alloc);
    let mut text = String::new(alloc);
    tell_in_turn(alloc, &mut paths, &mut text)?;
    Ok(text.as_str() == wanted)
}

const IN_TURN: &str =
    "1 at /a/b 2 at /a/c .1 at /x/b 2 at /a/c .1 at /x/b 2 at /y/c .1 at /y/b 2 at /y/c .";

#[test]
fn a_path_is_brought_up_to_date_once_it_is_asked_for(rt: HostRuntime) -> Result<(), Fail> {
    assert!(rt; is_told_in_turn(rt.alloc(), IN_TURN)?);
    Ok(())
}

// The path of a file in a directory.
fn numbered(alloc: Global, directory: &str, number: u64) -> Result<Path, Fail> {
    let mut text = String::new(alloc);
    write!(text, "{directory}/f{number}")?;
    Ok(Path::parse(alloc, text.as_str())?)
}

// Forty blocks of files in `/a`, of which one in the middle ends before that moves to `/b`, and one behind the move.
fn note_forty(alloc: Global, paths: &mut OpenPaths) -> Result<(), Fail> {
    for number in 0..40 {
        paths.note_block(&numbered(alloc, "/a", number)?, BlockId::new(number));
    }
    paths.end_block(BlockId::new(20));
    paths.move_directory(&Path::parse(alloc, "/a")?, &Path::parse(alloc, "/b")?);
    paths.end_block(BlockId::new(21));
    Ok(())
}

// Moves `/b` to `/a` and back again, and that so often.
fn move_often(alloc: Global, paths: &mut OpenPaths, times: u32) -> Result<(), Fail> {
    let (here, there) = (Path::parse(alloc, "/b")?, Path::parse(alloc, "/a")?);
    for _ in 0..times {
        paths.move_directory(&here, &there);
        paths.move_directory(&there, &here);
    }
    Ok(())
}

// More moves than are kept: all blocks learn of them on the way. Others are noted before those moves and behind them, and one file is moved.
fn note_many_moves(alloc: Global, paths: &mut OpenPaths) -> Result<(), Fail> {
    note_forty(alloc, paths)?;
    note_at(alloc, paths, 44, "/b/f77")?;
    note_at(alloc, paths, 5, "/b/c/g")?;
    move_often(alloc, paths, 700)?;
    note_at(alloc, paths, 41, "/c/f1")?;
    note_at(alloc, paths, 42, "/b/f2")?;
    note_at(alloc, paths, 43, "/a/f3")?;
    move_to(alloc, paths, "/b", "/d/e")
}

fn is_told_behind_many_moves(alloc: Global, wanted: &str) -> Result<bool, Fail> {
    let mut paths = OpenPaths::new(alloc);
    note_many_moves(alloc, &mut paths)?;
    paths.update_blocks();
    let mut text = String::new(alloc);
    tell(&paths, 50, &mut text)?;
    Ok(text.as_str() == wanted)
}

const BEHIND_MANY_MOVES: &str =
    "0 at /d/e/f0 1 at /d/e/f1 2 at /d/e/f2 3 at /d/e/f3 4 at /d/e/f4 5 at /d/e/c/g 6 at /d/e/f6 7 at /d/e/f7 8 at /d/e/f8 9 at /d/e/f9 10 at /d/e/f10 11 at /d/e/f11 12 at /d/e/f12 13 at /d/e/f13 14 at /d/e/f14 15 at /d/e/f15 16 at /d/e/f16 17 at /d/e/f17 18 at /d/e/f18 19 at /d/e/f19 22 at /d/e/f22 23 at /d/e/f23 24 at /d/e/f24 25 at /d/e/f25 26 at /d/e/f26 27 at /d/e/f27 28 at /d/e/f28 29 at /d/e/f29 30 at /d/e/f30 31 at /d/e/f31 32 at /d/e/f32 33 at /d/e/f33 34 at /d/e/f34 35 at /d/e/f35 36 at /d/e/f36 37 at /d/e/f37 38 at /d/e/f38 39 at /d/e/f39 41 at /c/f1 42 at /d/e/f2 43 at /a/f3 44 at /d/e/f77 .";

#[test]
fn blocks_are_known_behind_more_moves_than_are_kept(rt: HostRuntime) -> Result<(), Fail> {
    assert!(rt; is_told_behind_many_moves(rt.alloc(), BEHIND_MANY_MOVES)?);
    Ok(())
}
