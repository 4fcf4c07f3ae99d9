//! The places of the files that clients have open.

use crate::texts::are_texts;
use file_paths::path::Path;
use file_table::place::FilePlace;
use hdfs_values::ids::BlockId;
use hdfs_values::who::Who;
use open_file_paths::open_paths::OpenPaths;
use std::alloc::Global;
use std::fmt::Write;
use std::test::Fail;

// What is noted of the file at a place: that alice did it, where bob isn't named.
#[derive(Clone, Copy)]
enum Noted {
    Opened(usize),
    OpenedByBob(usize),
    Closed(usize),
    ClosedByBob(usize),
    // of a file that has no place
    OpenedNowhere,
    ClosedNowhere,
    // all of her files, or all of his
    Forgotten,
    BobForgotten,
    // one of hers and one of his
    Deleted(usize, usize),
}

fn note(paths: &mut OpenPaths, clients: &[Who; 2], noted: Noted) {
    let [alice, bob] = clients;
    match noted {
        Noted::Opened(place) => paths.open(alice, Some(FilePlace::new(place))),
        Noted::OpenedByBob(place) => paths.open(bob, Some(FilePlace::new(place))),
        Noted::Closed(place) => paths.close(alice, Some(FilePlace::new(place))),
        Noted::ClosedByBob(place) => paths.close(bob, Some(FilePlace::new(place))),
        Noted::OpenedNowhere => paths.open(alice, None),
        Noted::ClosedNowhere => paths.close(alice, None),
        Noted::Forgotten => paths.forget(alice),
        Noted::BobForgotten => paths.forget(bob),
        Noted::Deleted(hers, his) => paths.delete(
            clients,
            &[FilePlace::new(hers), FilePlace::new(his)],
            &[],
        ),
    }
}

// Writes the places of the files that a client has open, in the order in which they are told, each with a blank before it.
fn tell_of(paths: &mut OpenPaths, client: &Who, text: &mut String) -> Result<(), Fail> {
    for place in paths.places_of(client) {
        write!(text, " {}", place.key())?;
    }
    Ok(())
}

// Writes the same of both clients, and a stop behind all.
fn tell(paths: &mut OpenPaths, clients: &[Who; 2], text: &mut String) -> Result<(), Fail> {
    let [alice, bob] = clients;
    text.push_str("alice")?;
    tell_of(paths, alice, text)?;
    text.push_str(" bob")?;
    tell_of(paths, bob, text)?;
    Ok(text.push('.')?)
}

fn two_clients(alloc: Global) -> Result<[Who; 2], Fail> {
    Ok([Who::parse(alloc, "alice")?, Who::parse(alloc, "bob")?])
}

// Notes what happens, and writes behind each what the clients have open.
fn told(alloc: Global, table: &[(Noted, &str)]) -> Result<String, Fail> {
    let clients = two_clients(alloc)?;
    let mut paths = OpenPaths::new(alloc);
    let mut text = String::new(alloc);
    for (noted, _) in table {
        note(&mut paths, &clients, *noted);
        tell(&mut paths, &clients, &mut text)?;
    }
    Ok(text)
}

// Whether the clients have open what they are to have, behind each thing that happens.
fn are_told(alloc: Global, table: &[(Noted, &str)]) -> Result<bool, Fail> {
    let text = told(alloc, table)?;
    Ok(are_texts(table, text.as_str()))
}

// Opened last, first and between; again last, first and between; and at no place.
static OPENED: [(Noted, &str); 10] = [
    (Noted::Opened(5), "alice 5 bob."),
    (Noted::Opened(9), "alice 5 9 bob."),
    (Noted::Opened(2), "alice 2 5 9 bob."),
    (Noted::Opened(7), "alice 2 5 7 9 bob."),
    (Noted::Opened(9), "alice 2 5 7 9 bob."),
    (Noted::Opened(2), "alice 2 5 7 9 bob."),
    (Noted::Opened(7), "alice 2 5 7 9 bob."),
    (Noted::OpenedNowhere, "alice 2 5 7 9 bob."),
    (Noted::Opened(0), "alice 0 2 5 7 9 bob."),
    (Noted::Opened(8), "alice 0 2 5 7 8 9 bob."),
];

#[test]
fn places_are_told_in_ascending_order_once_each(rt: HostRuntime) -> Result<(), Fail> {
    assert!(rt; are_told(rt.alloc(), &OPENED)?);
    Ok(())
}

// The oldest, the newest and any file are closed; then such as aren't open any more, before, behind and between the others; then all.
static CLOSED: [(Noted, &str); 18] = [
    (Noted::Opened(1), "alice 1 bob."),
    (Noted::Opened(2), "alice 1 2 bob."),
    (Noted::Opened(3), "alice 1 2 3 bob."),
    (Noted::Opened(4), "alice 1 2 3 4 bob."),
    (Noted::Opened(5), "alice 1 2 3 4 5 bob."),
    (Noted::Opened(6), "alice 1 2 3 4 5 6 bob."),
    (Noted::Closed(1), "alice 2 3 4 5 6 bob."),
    (Noted::Closed(6), "alice 2 3 4 5 bob."),
    (Noted::Closed(4), "alice 2 3 5 bob."),
    (Noted::Closed(1), "alice 2 3 5 bob."),
    (Noted::Closed(6), "alice 2 3 5 bob."),
    (Noted::Closed(4), "alice 2 3 5 bob."),
    (Noted::ClosedNowhere, "alice 2 3 5 bob."),
    (Noted::Opened(4), "alice 2 3 4 5 bob."),
    (Noted::Closed(3), "alice 2 4 5 bob."),
    (Noted::Closed(5), "alice 2 4 bob."),
    (Noted::Closed(2), "alice 4 bob."),
    (Noted::Closed(4), "alice bob."),
];

#[test]
fn places_are_closed_in_any_order(rt: HostRuntime) -> Result<(), Fail> {
    assert!(rt; are_told(rt.alloc(), &CLOSED)?);
    Ok(())
}

// One client closes none of the other's files, also where it has none open, or where both had one at the same place.
static OF_TWO: [(Noted, &str); 12] = [
    (Noted::OpenedByBob(2), "alice bob 2."),
    (Noted::Closed(2), "alice bob 2."),
    (Noted::Opened(1), "alice 1 bob 2."),
    (Noted::ClosedByBob(1), "alice 1 bob 2."),
    (Noted::Closed(2), "alice 1 bob 2."),
    (Noted::OpenedByBob(1), "alice 1 bob 1 2."),
    (Noted::Closed(1), "alice bob 1 2."),
    (Noted::Closed(1), "alice bob 1 2."),
    (Noted::ClosedByBob(2), "alice bob 1."),
    (Noted::Opened(2), "alice 2 bob 1."),
    (Noted::ClosedByBob(1), "alice 2 bob."),
    (Noted::OpenedByBob(3), "alice 2 bob 3."),
];

#[test]
fn each_client_has_places_of_its_own(rt: HostRuntime) -> Result<(), Fail> {
    assert!(rt; are_told(rt.alloc(), &OF_TWO)?);
    Ok(())
}

// A client is forgotten that has no file open, one that has some, and the other one.
static FORGOTTEN: [(Noted, &str); 9] = [
    (Noted::Forgotten, "alice bob."),
    (Noted::Opened(1), "alice 1 bob."),
    (Noted::Opened(2), "alice 1 2 bob."),
    (Noted::OpenedByBob(3), "alice 1 2 bob 3."),
    (Noted::Forgotten, "alice bob 3."),
    (Noted::Closed(1), "alice bob 3."),
    (Noted::Opened(2), "alice 2 bob 3."),
    (Noted::BobForgotten, "alice 2 bob."),
    (Noted::OpenedByBob(4), "alice 2 bob 4."),
];

#[test]
fn places_are_forgotten_with_their_client(rt: HostRuntime) -> Result<(), Fail> {
    assert!(rt; are_told(rt.alloc(), &FORGOTTEN)?);
    Ok(())
}

// A file of each is deleted; then those that the other one has; then each one's last.
static DELETED: [(Noted, &str); 9] = [
    (Noted::Opened(1), "alice 1 bob."),
    (Noted::Opened(2), "alice 1 2 bob."),
    (Noted::Opened(4), "alice 1 2 4 bob."),
    (Noted::OpenedByBob(3), "alice 1 2 4 bob 3."),
    (Noted::OpenedByBob(5), "alice 1 2 4 bob 3 5."),
    (Noted::Deleted(2, 3), "alice 1 4 bob 5."),
    (Noted::Deleted(5, 4), "alice 1 4 bob 5."),
    (Noted::Deleted(1, 5), "alice 4 bob."),
    (Noted::Deleted(4, 4), "alice bob."),
];

#[test]
fn places_are_closed_where_their_files_are_deleted(rt: HostRuntime) -> Result<(), Fail> {
    assert!(rt; are_told(rt.alloc(), &DELETED)?);
    Ok(())
}

// Alice has the files at 1, 2 and 3 open, and bob that at 4; those of the first three end with the blocks 7, 8 and 9.
fn open_four(alloc: Global, paths: &mut OpenPaths, clients: &[Who; 2]) -> Result<(), Fail> {
    note(paths, clients, Noted::Opened(1));
    note(paths, clients, Noted::Opened(2));
    note(paths, clients, Noted::Opened(3));
    note(paths, clients, Noted::OpenedByBob(4));
    paths.note_block(&Path::parse(alloc, "/a/b")?, BlockId::new(7));
    paths.note_block(&Path::parse(alloc, "/c")?, BlockId::new(8));
    paths.note_block(&Path::parse(alloc, "/a/d")?, BlockId::new(9));
    Ok(())
}

// Deletes two files of one client and one of the other, with blocks of which one isn't noted.
fn delete_three(paths: &mut OpenPaths, clients: &[Who; 2]) -> Result<(), Fail> {
    let [alice, bob] = clients;
    let holders = [alice.clone()?, bob.clone()?, alice.clone()?];
    let places = [FilePlace::new(3), FilePlace::new(4), FilePlace::new(1)];
    let blocks = [BlockId::new(9), BlockId::new(5), BlockId::new(7)];
    paths.delete(&holders, &places, &blocks);
    Ok(())
}

// Whether of the three blocks the one between is known, where it was.
fn is_one_known(alloc: Global, paths: &OpenPaths) -> Result<bool, Fail> {
    let path = Path::parse(alloc, "/c")?;
    Ok(
        paths.of_block(BlockId::new(7)).is_none()
            && paths.of_block(BlockId::new(8)) == Some(&path)
            && paths.of_block(BlockId::new(9)).is_none(),
    )
}

// Whether the clients have these files open.
fn have_open(
    alloc: Global,
    paths: &mut OpenPaths,
    clients: &[Who; 2],
    wanted: &str,
) -> Result<bool, Fail> {
    let mut text = String::new(alloc);
    tell(paths, clients, &mut text)?;
    Ok(text.as_str() == wanted)
}

fn are_deleted(alloc: Global) -> Result<bool, Fail> {
    let clients = two_clients(alloc)?;
    let mut paths = OpenPaths::new(alloc);
    open_four(alloc, &mut paths, &clients)?;
    delete_three(&mut paths, &clients)?;
    Ok(is_one_known(alloc, &paths)? && have_open(alloc, &mut paths, &clients, "alice 2 bob.")?)
}

#[test]
fn places_and_blocks_are_deleted_together(rt: HostRuntime) -> Result<(), Fail> {
    assert!(rt; are_deleted(rt.alloc())?);
    Ok(())
}

// Opens files at the places below a bound, one behind the other, of which never more than six are open: the oldest is closed each time.
fn open_in_turn(paths: &mut OpenPaths, client: &Who, bound: usize) {
    for place in 0..bound {
        paths.open(client, Some(FilePlace::new(place)));
        if let Some(oldest) = place.checked_sub(5) {
            paths.close(client, Some(FilePlace::new(oldest)));
        }
    }
}

// The oldest files are closed as others are opened, without a look at them; then files are opened and closed among those that are left.
fn open_and_close(paths: &mut OpenPaths, clients: &[Who; 2]) {
    open_in_turn(paths, &clients[0], 1_003);
    note(paths, clients, Noted::Closed(1_000));
    note(paths, clients, Noted::Opened(70));
    note(paths, clients, Noted::Opened(1_000));
    note(paths, clients, Noted::Closed(1_001));
}

fn are_those_left(alloc: Global) -> Result<bool, Fail> {
    let clients = two_clients(alloc)?;
    let mut paths = OpenPaths::new(alloc);
    open_and_close(&mut paths, &clients);
    have_open(
        alloc,
        &mut paths,
        &clients,
        "alice 70 998 999 1000 1002 bob.",
    )
}

#[test]
fn places_are_known_where_the_oldest_are_closed_each_time(rt: HostRuntime) -> Result<(), Fail> {
    assert!(rt; are_those_left(rt.alloc())?);
    Ok(())
}
