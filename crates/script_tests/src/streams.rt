ghost use Rattle.std.specs.Prelude.{◌≤◌, IfOk};

use hdfs_cli::script::{ScriptFault, Status, run_script};
use std::io;
use std::io::{ErrorKind, Read, Write};
use std::test::Fail;

/// What a stream does at its next calls.
#[derive(Clone, Copy)]
pub(crate) enum Step {
    /// It is interrupted so many times.
    Interrupts(u32),
    /// It gives or takes at most so many bytes.
    Moves(usize),
    /// It fails.
    Fails,
}

/// What a stream does at one call.
enum Call {
    Interrupt,
    Move(usize),
    Fail,
}

/// What a stream does, call by call. Behind its steps it gives or takes all that it can.
#[derive(Drop)]
struct Plan<'a> {
    steps: &'a [Step],
    /// How often the first of the steps has interrupted.
    interrupted: u32,
}

impl<'a> Plan<'a> {
    fn of(steps: &'a [Step]) -> Plan<'a> {
        Plan {
            steps,
            interrupted: 0,
        }
    }

    /// Goes on to the next step.
    fn pass(&mut self) {
        self.steps = self.steps.get(1..).unwrap_or(&[]);
        self.interrupted = 0;
    }

    fn call(&mut self) -> Call {
        match self.steps.first().copied() {
            Some(Step::Interrupts(times)) => {
                self.interrupted = self.interrupted.saturating_add(1);
                if self.interrupted >= times {
                    self.pass();
                }
                Call::Interrupt
            }
            Some(Step::Moves(most)) => {
                self.pass();
                Call::Move(most)
            }
            Some(Step::Fails) => {
                self.pass();
                Call::Fail
            }
            None => Call::Move(usize::MAX),
        }
    }

    /// How many bytes the next call gives or takes of so many.
    fn count(&mut self, there: usize) -> io::Result<usize>
        ensures { IfOk result (λ count. count ≤ there) }
    {
        match self.call() {
            Call::Interrupt => Err(io::Error::from(ErrorKind::Interrupted)),
            Call::Move(most) => Ok(most.min(there)),
            Call::Fail => Err(io::Error::from(ErrorKind::Other)),
        }
    }
}

/// A reader of a text, by a plan.
#[derive(Drop)]
pub(crate) struct PlannedReader<'a> {
    text: &'a [u8],
    plan: Plan<'a>,
}

impl Read for PlannedReader<'_> {
    fn read(&mut self, buf: &mut [u8]) -> io::Result<usize> {
        let count = self.plan.count(self.text.len().min(buf.len()))?;
        let (given, rest) = self.text.split_at(count);
        buf[..count].copy_from_slice(given);
        self.text = rest;
        Ok(count)
    }
}

/// A writer that keeps what it takes, by a plan.
#[derive(Drop)]
struct PlannedWriter<'a> {
    taken: Vec<u8>,
    plan: Plan<'a>,
    /// How many bytes it had at its last flush.
    flushed: Option<usize>,
    /// Whether a flush fails.
    flush_fails: bool,
}

impl Write for PlannedWriter<'_> {
    fn write(&mut self, buf: &[u8]) -> io::Result<usize> {
        let count = self.plan.count(buf.len())?;
        self.taken.extend_from_slice(&buf[..count])?;
        Ok(count)
    }

    fn flush(&mut self) -> io::Result<()> {
        self.flushed = Some(self.taken.len());
        if self.flush_fails {
            return Err(io::Error::from(ErrorKind::Other));
        }
        Ok(())
    }
}

const SCRIPT: &str = "0 hdfs stat /\n0 bob stat /x\n";

const ANSWERS: &str = "1 ok dir 0755 hdfs supergroup\n2 refused 2 NotFound\n";

/// A reader of the script.
pub(crate) fn reader<'a>(steps: &'a [Step]) -> PlannedReader<'a> {
    PlannedReader {
        text: SCRIPT.as_bytes(),
        plan: Plan::of(steps),
    }
}

fn writer<'a>(rt: &HostRuntime, steps: &'a [Step]) -> PlannedWriter<'a> {
    PlannedWriter {
        taken: Vec::new(rt.alloc()),
        plan: Plan::of(steps),
        flushed: None,
        flush_fails: false,
    }
}

/// Whether a run whose reader does these steps ends so, and has written this text.
fn reads(rt: &HostRuntime, steps: &[Step], want: Result<Status, ScriptFault>, text: &str) -> bool {
    let mut writer = writer(rt, &[]);
    let ended = run_script(rt.alloc(), &mut reader(steps), &mut writer);
    ended == want && writer.taken.as_slice() == text.as_bytes()
}

/// Whether a run whose writer does these steps ends so, and has written so many bytes of the answers.
fn writes(
    rt: &HostRuntime,
    steps: &[Step],
    want: Result<Status, ScriptFault>,
    count: usize,
) -> bool {
    let mut writer = writer(rt, steps);
    let ended = run_script(rt.alloc(), &mut reader(&[]), &mut writer);
    ended == want && writer.taken.len() == count && ANSWERS.as_bytes().starts_with(&writer.taken)
}

/// One byte at each call up to the one of this number, counted from 0, which fails.
fn failing_at(number: usize) -> [Step; 20] {
    let mut steps = [Step::Moves(1); 20];
    if let Some(step) = steps.get_mut(number) {
        *step = Step::Fails;
    }
    steps
}

#[test]
fn an_interrupted_read_goes_on(rt: HostRuntime) -> Result<(), Fail> {
    let steps = [
        Step::Interrupts(1),
        Step::Moves(5),
        Step::Interrupts(2),
        Step::Moves(3),
        Step::Moves(100),
        Step::Interrupts(1),
    ];
    assert!(rt; reads(&rt, &steps, Ok(Status::Clean), ANSWERS));
    Ok(())
}

/// The reader would give the rest if it was asked again.
#[test]
fn a_failed_read_is_not_tried_again(rt: HostRuntime) -> Result<(), Fail> {
    assert!(rt; reads(&rt, &[Step::Fails], Err(ScriptFault::CannotRead), ""));
    for left in 1..SCRIPT.len() {
        let steps = [Step::Moves(left), Step::Fails];
        assert!(rt; reads(&rt, &steps, Err(ScriptFault::CannotRead), ""));
    }
    for number in 0..20 {
        assert!(rt; reads(&rt, &failing_at(number), Err(ScriptFault::CannotRead), ""));
    }
    Ok(())
}

#[test]
fn an_interrupted_write_goes_on(rt: HostRuntime) -> Result<(), Fail> {
    let steps = [
        Step::Interrupts(1),
        Step::Moves(4),
        Step::Interrupts(2),
        Step::Moves(1),
        Step::Interrupts(1),
    ];
    assert!(rt; writes(&rt, &steps, Ok(Status::Clean), ANSWERS.len()));
    Ok(())
}

/// The writer would take the rest if it was asked again. What it has taken is a front of the answers.
#[test]
fn a_failed_write_is_not_tried_again(rt: HostRuntime) -> Result<(), Fail> {
    assert!(rt; writes(&rt, &[Step::Fails], Err(ScriptFault::CannotWrite), 0));
    for left in 1..ANSWERS.len() {
        let steps = [Step::Moves(left), Step::Fails];
        assert!(rt; writes(&rt, &steps, Err(ScriptFault::CannotWrite), left));
    }
    for number in 0..20 {
        assert!(rt;
            writes(
                &rt,
                &failing_at(number),
                Err(ScriptFault::CannotWrite),
                number
            )
        );
    }
    Ok(())
}

#[test]
fn a_write_that_takes_nothing_is_a_fault(rt: HostRuntime) -> Result<(), Fail> {
    let steps = [Step::Moves(4), Step::Moves(0)];
    assert!(rt; writes(&rt, &steps, Err(ScriptFault::CannotWrite), 4));
    Ok(())
}

/// Calls of a stream, of which 4,294,967,295 are allowed where it is read, and more where it is written.
const MANY: u32 = 200_000;

#[test]
fn many_reads_end_no_run(rt: HostRuntime) -> Result<(), Fail> {
    let steps = [Step::Moves(5), Step::Interrupts(MANY)];
    assert!(rt; reads(&rt, &steps, Ok(Status::Clean), ANSWERS));
    Ok(())
}

#[test]
fn many_writes_end_no_run(rt: HostRuntime) -> Result<(), Fail> {
    let steps = [Step::Moves(4), Step::Interrupts(MANY)];
    assert!(rt; writes(&rt, &steps, Ok(Status::Clean), ANSWERS.len()));
    Ok(())
}

/// How a run of a script ends whose writer is flushed so, and how many bytes it had then.
fn flushed(
    rt: &HostRuntime,
    script: &str,
    flush_fails: bool,
) -> (Result<Status, ScriptFault>, Option<usize>) {
    let mut writer = writer(rt, &[Step::Moves(4)]);
    writer.flush_fails = flush_fails;
    let mut reader = script.as_bytes();
    let ended = run_script(rt.alloc(), &mut reader, &mut writer);
    (ended, writer.flushed)
}

#[test]
fn what_is_written_is_flushed(rt: HostRuntime) -> Result<(), Fail> {
    for (script, count) in [(SCRIPT, ANSWERS.len()), ("", 0)] {
        assert!(rt; flushed(&rt, script, false) == (Ok(Status::Clean), Some(count)));
    }
    Ok(())
}

#[test]
fn a_failed_flush_is_a_fault(rt: HostRuntime) -> Result<(), Fail> {
    for (script, count) in [(SCRIPT, ANSWERS.len()), ("", 0)] {
        let want = (Err(ScriptFault::CannotWrite), Some(count));
        assert!(rt; flushed(&rt, script, true) == want);
    }
    Ok(())
}
