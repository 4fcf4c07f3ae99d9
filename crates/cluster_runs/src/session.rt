ghost use Rattle.std.specs.Prelude.{◌≡◌, ◌+◌, ◌++◌, ◌<◌, ◌^◌, length, slice_get, IfOk, OnOk, OnErr, Ok, Err, map, option_copied};
ghost use Rattle.std.specs.Option.{option_map};
ghost use Rattle.std.specs.String.{string_bytes};
ghost use Rattle.history.specs.declared.entry.HistoryEntry.{HistoryEntry};
ghost use Rattle.cluster_trace.specs.Provenance.{AllRight};
ghost use Rattle.cluster_trace.specs.Typed.{AreTyped};
ghost use Rattle.script_runs.specs.Status.{status_by};
ghost use Rattle.script_words.specs.LineForms.{Forms};
ghost use Rattle.script_words.specs.Words as words;
ghost use Rattle.cluster_text.specs.ToldText.{answer_line};
ghost use Rattle.cluster_runs.specs.Output as spec;
ghost use Rattle.cluster_runs.specs.Shown.{Shows, KeepsLines, ShowsFirst};

use cluster_core::world::{NameCore, World};
use cluster_text::event_line::event_of_line;
use cluster_text::told::{print_bad, print_told};
use cluster_trace::event::Event;
use cluster_trace::outcome::Outcome;
use flat_rows::verdict::Verdict;
use hdfs_types::key::Key;
use hdfs_values::fault::{IllFormed, ParseFault};
use hdfs_values::pieces::cut_at;
use history::config::Config;
use node_ids::node_id::NodeId;
use script_words::words::{is_skipped, without_return};
use std::alloc::{AllocError, Global};
use std::mem;

// The first key of a script's NameNode.
const FIRST_KEY: [u8; 20] = [0x0b; 20];

fn node(id: u32) -> NodeId
    requires { 0 < id }
    ensures { result ≡ id }
{
    let Some(node) = NodeId::new(id) else {
        unreachable!();
    };
    node
}

/// The cluster of a script, in which nothing has happened: a NameNode and the DataNodes 1 to 8.
///
/// # Errors
/// Out of memory.
pub fn open_world(alloc: Global) -> Result<World, AllocError>
    ensures { IfOk result (λ world. world ≡ spec.no_events) }
{
    let nodes = [
        node(1),
        node(2),
        node(3),
        node(4),
        node(5),
        node(6),
        node(7),
        node(8),
    ];
    World::new(alloc, Config::standard(), Key::new(FIRST_KEY), &nodes)
}

/// The verdict of a core's newest entry.
fn newest_verdict(core: &NameCore) -> Option<&Verdict>
    ensures { option_copied result ≡ option_map (λ (entry : HistoryEntry). entry.verdict) (slice_get core.now.entries 0) }
{
    match core.last() {
        Some(entry) => Some(&entry.verdict),
        None => None,
    }
}

/// Adds what came of an event that a world has stepped, behind the number of its line, where the ledger had so many rows before.
fn print_stepped(
    number: usize,
    rows: usize,
    world: &World,
    outcome: &Outcome,
    line: &mut String,
    out: &mut String,
) -> Result<(), AllocError>
    ensures ok { OnOk result (string_bytes out.new ≡ string_bytes out.old ++ answer_line number (Ok (record { outcome = outcome.now; rows = rows; newest = spec.newest_verdict world.now }))) }
    ensures err { OnErr result (string_bytes out.new ≡ string_bytes out.old) }
{
    let newest = newest_verdict(world.core());
    print_told(number, rows, newest, outcome, line, out)
}

/// How many tokens were granted.
fn granted(world: &World) -> usize
    ensures { result ≡ length (spec.ledger_after world.now) }
{
    world.core().ledger().len()
}

/// A script that is being run: the cluster, the lines so far, and what they print.
#[derive(Drop)]
pub struct Session {
    world: World,
    /// How many lines were run. One in which memory ran out isn't among them.
    number: usize,
    /// Whether one of them was ill-formed.
    has_bad: bool,
    out: String,
    /// Where an answer is formatted.
    line: String,
    alloc: Global,
}

impl Session {
    /// A cluster in which nothing has happened.
    ///
    /// # Errors
    /// Out of memory.
    pub fn open(alloc: Global) -> Result<Session, AllocError>
        ensures { IfOk result (Shows spec.no_lines) }
    {
        Ok(Session {
            world: open_world(alloc)?,
            number: 0,
            has_bad: false,
            out: String::new(alloc),
            line: String::new(alloc),
            alloc,
        })
    }

    /// The cluster as the lines so far leave it. Takes no memory.
    pub fn world(&self) -> &World
        ensures { result.now ≡ self.now.world }
    {
        &self.world
    }

    /// How many lines were run, empty ones and comments among them.
    pub fn number(&self) -> usize
        ensures { result ≡ self.now.number }
    {
        self.number
    }

    /// Whether one of the lines so far was ill-formed.
    pub fn has_bad(&self) -> bool
        ensures { (state : spec.State) → Shows state self.now → status_by result ≡ spec.script_status state.answers }
    {
        self.has_bad
    }

    /// A law of the lines so far, which a call tells the prover; it does nothing, and returns nothing. Every request was answered by the
    /// written rules, and every call of a DataNode that presented a token and was served, presented one that the NameNode had granted for
    /// it, or a forged one; and all values fit their types.
    pub fn is_right(&self)
        ensures right { (state : spec.State) → Shows state self.now → AllRight state.past.opening state.past.events }
        ensures typed { (state : spec.State) → Shows state self.now → AreTyped state.past.opening state.past.events }
    {
        self.world.is_right();
    }

    /// What the lines so far print, where nothing more is run. The cluster isn't taken apart, and its memory stays allocated: a program
    /// that has run a script ends soon, which gives all memory back at once.
    pub fn into_output(self) -> String
        ensures { result ≡ self.out }
    {
        let Session { world, out, .. } = self;
        mem::forget(world);
        out
    }

    /// Answers an event. Where memory runs out the line isn't counted, and the output stays as it was.
    fn answer_event(&mut self, event: Event) -> Result<(), AllocError>
        requires { self.old.number + 1 < 2 ^ 64 }
        ensures number { OnOk result (self.new.number ≡ self.old.number + 1) }
        ensures ok { (state : spec.State) → Shows state self.old → OnOk result (Shows (spec.after_answer state (spec.line_answered state.past (Ok event))) self.new) }
        ensures err { OnErr result (KeepsLines self.old self.new) }
    {
        let rows = granted(&self.world);
        let outcome = self.world.step(event)?;
        let number = self.number + 1;
        let printed = print_stepped(
            number,
            rows,
            &self.world,
            &outcome,
            &mut self.line,
            &mut self.out,
        );
        drop(outcome);
        printed?;
        self.number = number;
        Ok(())
    }

    /// Answers an ill-formed line. Where memory runs out the line isn't counted, and the output stays as it was.
    fn answer_bad(&mut self, fault: IllFormed) -> Result<(), AllocError>
        requires { self.old.number + 1 < 2 ^ 64 }
        ensures number { OnOk result (self.new.number ≡ self.old.number + 1) }
        ensures ok { (state : spec.State) → Shows state self.old → OnOk result (Shows (spec.after_answer state (spec.line_answered state.past (Err fault))) self.new) }
        ensures err { OnErr result (KeepsLines self.old self.new) }
    {
        print_bad(self.number + 1, fault, &mut self.line, &mut self.out)?;
        self.number += 1;
        self.has_bad = true;
        Ok(())
    }

    /// What a line says, where it is read behind those that were run.
    fn read<'a>(&self, words: &mut Vec<&'a str>, line: &'a str) -> Result<Event, ParseFault>
        ensures { Forms result (spec.event_in self.now.world line.now) }
    {
        event_of_line(
            self.alloc,
            self.world.core().ledger().as_slice(),
            words,
            line,
        )
    }

    /// Runs a line, and adds its answer to the output where it has one. The list is for the words of the line. Where memory runs out
    /// the line isn't counted, and the output stays as it was; so it is where the line's number needs more than 64 bits.
    fn serve<'a>(&mut self, words: &mut Vec<&'a str>, line: &'a str) -> Result<(), AllocError>
        ensures number { OnOk result (self.new.number ≡ self.old.number + 1) }
        ensures ok { (state : spec.State) → Shows state self.old → OnOk result (Shows (spec.after_line state line.now) self.new) }
        ensures err { OnErr result (KeepsLines self.old self.new) }
    {
        if self.number == usize::MAX {
            return Err(AllocError);
        }
        let line = without_return(line);
        if is_skipped(line) {
            self.number += 1;
            return Ok(());
        }
        match self.read(words, line) {
            Ok(event) => self.answer_event(event),
            Err(ParseFault::IllFormed(fault)) => self.answer_bad(fault),
            Err(ParseFault::OutOfMemory) => Err(AllocError),
        }
    }

    /// Runs lines behind those that were run. Costs what each line's event does, beside a step for each byte. Where memory runs out, the
    /// session has counted those before, and holds what they print.
    ///
    /// # Errors
    /// Out of memory.
    pub fn serve_all<'a>(&mut self, lines: &[&'a str]) -> Result<(), AllocError>
        requires { self.old.number + length lines.now < 2 ^ 64 }
        ensures ok { (state : spec.State) → Shows state self.old → OnOk result (Shows (spec.behind_lines state (map (λ line. line.now) lines.now)) self.new) }
        ensures err { (state : spec.State) → Shows state self.old → OnErr result (ShowsFirst state (map (λ line. line.now) lines.now) self.new) }
    {
        let mut words = Vec::new(self.alloc);
        for line in lines {
            self.serve(&mut words, line)?;
        }
        Ok(())
    }

    /// Runs the lines of a text behind those that were run, each as it is cut from the text. Costs what each line's event does, beside a step
    /// for each byte. Where memory runs out, the session has counted those before, and holds what they print.
    ///
    /// # Errors
    /// Out of memory, or more lines than numbers of 64 bits.
    pub fn serve_text<'a>(&mut self, text: &'a str) -> Result<(), AllocError>
        ensures ok { (state : spec.State) → Shows state self.old → OnOk result (Shows (spec.behind_lines state (words.lines_of text.now)) self.new) }
        ensures err { (state : spec.State) → Shows state self.old → OnErr result (ShowsFirst state (words.lines_of text.now) self.new) }
    {
        let mut words = Vec::new(self.alloc);
        let mut rest = text;
        while let Some((line, behind)) = cut_at(rest, b'\n') {
            self.serve(&mut words, line)?;
            rest = behind;
        }
        self.serve(&mut words, rest)
    }
}
