//! A history that is made by hand, and altered, checked against what two callers kept.

use crate::alterations::{Altered, Change, altered_rows};
use crate::story::{empty, judge, tell};
use audit_check::check::CheckFault;
use std::alloc::Global;
use std::test::Fail;

// What the check answers to the story with these alterations.
fn checked(alloc: Global, altered: &[Altered]) -> Result<Result<(), CheckFault>, Fail> {
    let rows = altered_rows(alloc, altered)?;
    let mut story = empty(alloc);
    let told = tell(alloc, &mut story, &rows);
    let answer = judge(alloc, story);
    told?;
    Ok(answer)
}

// The verdicts of entries that were there before the passes are no matter of the passes.
static OPENING_MOVED: [Altered; 2] = [
    Altered::Entry(1, Change::Moved(7)),
    Altered::Opening(1, Change::Moved(7)),
];

#[test]
fn a_good_history_agrees(rt: HostRuntime) -> Result<(), Fail> {
    assert_eq!(rt; checked(rt.alloc(), &[])?, Ok(()));
    assert_eq!(rt;
        checked(rt.alloc(), &OPENING_MOVED)?,
        Ok(()),
        "entries of the opening"
    );
    Ok(())
}

// Of an altered receipt its pair is named, or that of one which came into its place.
static RECEIPTS: [(Altered, u64, u64); 8] = [
    (Altered::Receipt(0, 2, Change::Dropped), 0, 2),
    (Altered::Receipt(1, 3, Change::Dropped), 1, 3),
    (Altered::Receipt(1, 1, Change::Exchanged(3)), 1, 1),
    (Altered::Receipt(0, 3, Change::Done), 0, 3),
    (Altered::Receipt(1, 2, Change::Done), 1, 2),
    (Altered::Receipt(0, 4, Change::Done), 0, 4),
    (Altered::Receipt(0, 1, Change::Moved(2)), 0, 1),
    (Altered::Receipt(0, 4, Change::Moved(8)), 0, 4),
];

// Of an altered entry the pair that it names, or that of a receipt which finds another entry at its place.
static ENTRIES: [(Altered, u64, u64); 10] = [
    (Altered::Entry(6, Change::Done), 0, 3),
    (
        Altered::Entry(3, Change::Later("1000 bob mkdirs /d/b 755")),
        1,
        1,
    ),
    (Altered::Entry(3, Change::Moved(9)), 1, 1),
    (Altered::Entry(3, Change::Repeated), 0, 2),
    (Altered::Entry(6, Change::Repeated), 0, 3),
    (Altered::Entry(6, Change::Dropped), 0, 3),
    (
        Altered::Entry(0, Change::Later("1000 hdfs mkdirs /d 777")),
        0,
        0,
    ),
    (Altered::Entry(1, Change::Moved(7)), 0, 1),
    (Altered::Entry(1, Change::Dropped), 0, 1),
    (Altered::Opening(1, Change::Moved(7)), 0, 1),
];

#[test]
fn altered_receipts_and_entries_disagree(rt: HostRuntime) -> Result<(), Fail> {
    for table in [RECEIPTS.as_slice(), ENTRIES.as_slice()] {
        for (altered, pass, index) in table {
            let (pass, index) = (*pass, *index);
            let wanted = Err(CheckFault::Disagreement { pass, index });
            assert_eq!(rt; checked(rt.alloc(), &[*altered])?, wanted, "{altered:?}");
        }
    }
    Ok(())
}
