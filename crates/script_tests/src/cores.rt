//! A core's own history, checked against what its callers were told.

use crate::story::{Story, empty, judge};
use audit_check::check::CheckFault;
use hdfs_types::key::Key;
use hdfs_types::op::{Request, is_look};
use history::config::Config;
use history::entry::Answer;
use name_core::namenode::NameCore;
use script_text::line::read_line;
use std::alloc::{AllocError, Global};
use std::test::Fail;

// From before the passes.
static BEFORE: [(u64, &str); 2] = [(0, "0 hdfs mkdirs /d 777"), (0, "0 dn-1 heartbeat")];

// What two callers ask in turn, each by the number of its pass: what is done, denied and refused, what grants tokens, and looks.
static ASKED: [(u64, &str); 11] = [
    (0, "1 alice create /d/a 640 1"),
    (1, "1 bob du /d"),
    (0, "1 alice addblock /d/a"),
    (1, "2 bob open /d/a"),
    (1, "2 bob stat /d/none"),
    (0, "3 alice chmod /d/a 644"),
    (1, "3 bob open /d/a"),
    (0, "3 alice complete /d/a 1 5"),
    (1, "4 hdfs rollkey 1616161616161616161616161616161616161616"),
    (1, "4 dn-1 heartbeat"),
    (0, "5 alice getfacl /d/a"),
];

fn answer_to(
    core: &mut NameCore,
    pass: u64,
    index: u64,
    request: &Request,
) -> Result<Answer, AllocError> {
    if is_look(&request.op) {
        return core.look(request);
    }
    core.step(pass, index, request)
}

// Asks in a pass, and keeps the answer.
fn ask(
    alloc: Global,
    core: &mut NameCore,
    pass: u64,
    line: &str,
    kept: &mut Vec<Answer>,
) -> Result<(), Fail> {
    let Ok(request) = read_line(alloc, line)? else {
        return Err("no request".into());
    };
    let answer = answer_to(core, pass, kept.len() as u64, &request);
    drop(request);
    kept.push(answer?)?;
    Ok(())
}

fn ask_all(
    alloc: Global,
    core: &mut NameCore,
    asked: &[(u64, &str)],
    story: &mut Story,
) -> Result<(), Fail> {
    for (pass, line) in asked {
        let kept = if *pass == 0 {
            &mut story.first
        } else {
            &mut story.second
        };
        ask(alloc, core, *pass, line, kept)?;
    }
    Ok(())
}

// What a core has done, and what its callers were told.
fn record(alloc: Global, core: &mut NameCore, story: &mut Story) -> Result<(), Fail> {
    ask_all(alloc, core, &BEFORE, story)?;
    story.first.clear();
    story.opening.config = core.config();
    story.opening.first_key = core.first_key();
    story.opening.entries = core.copy_history()?;
    ask_all(alloc, core, &ASKED, story)?;
    story.history = core.copy_history()?;
    Ok(())
}

// What the check answers to what a core has done, where its first key was another one or its own.
fn checked(alloc: Global, other: Option<Key>) -> Result<Result<(), CheckFault>, Fail> {
    let mut core = NameCore::open(alloc, Config::standard(), Key::new([1; 20]))?;
    let mut story = empty(alloc);
    let recorded = record(alloc, &mut core, &mut story);
    drop(core);
    if let Some(key) = other {
        story.opening.first_key = key;
    }
    let answer = judge(alloc, story);
    recorded?;
    Ok(answer)
}

// Tokens have a code by the key, so the first entry that grants one isn't legal by another.
#[test]
fn the_history_of_a_core_agrees_by_its_key_alone(rt: HostRuntime) -> Result<(), Fail> {
    assert_eq!(rt; checked(rt.alloc(), None)?, Ok(()));
    let disagreement = CheckFault::Disagreement { pass: 0, index: 1 };
    assert_eq!(rt;
        checked(rt.alloc(), Some(Key::new([2; 20])))?,
        Err(disagreement)
    );
    Ok(())
}
