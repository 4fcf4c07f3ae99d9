ghost use Rattle.std.specs.Prelude.{◌≡◌, List, ℕ, IfOk, OnOk, OnErr, Ok, Err, map};
ghost use Rattle.cluster_runs.specs.Output as spec;
ghost use Rattle.cluster_runs.specs.Audit.{history_after, history_of_script};
ghost use Rattle.cluster_runs.specs.Recorded.{Holds, HoldsFirst, AreFirstOf};

use crate::session::open_world;
use cluster_core::world::World;
use cluster_text::event_line::read_event_with;
use cluster_trace::event::Event;
use hdfs_values::fault::IllFormed;
use history::entry::HistoryEntry;
use script_runs::script::Status;
use script_words::words::{is_skipped, pieces_between, without_return};
use std::alloc::{AllocError, Global};

/// A script that is recorded: what a `Session` has of it, but for the answers, which would grow with the script.
#[derive(Drop)]
pub(crate) struct Recording {
    world: World,
    /// Whether a line was ill-formed.
    has_bad: bool,
    alloc: Global,
}

impl Recording {
    /// A cluster in which nothing has happened.
    ///
    /// # Errors
    /// Out of memory.
    pub(crate) fn open(alloc: Global) -> Result<Recording, AllocError>
        ensures { IfOk result (Holds spec.no_lines) }
    {
        Ok(Recording {
            world: open_world(alloc)?,
            has_bad: false,
            alloc,
        })
    }

    /// The entries of the NameNode so far, the oldest first.
    pub(crate) fn history(&self) -> &[HistoryEntry]
        ensures { result.now ≡ history_after self.now.world }
    {
        self.world.core().history()
    }

    /// Records an event. Where memory runs out it hasn't happened.
    fn record_event(&mut self, event: Event) -> Result<(), AllocError>
        ensures ok { (state : spec.State) → Holds state self.old → OnOk result (Holds (spec.after_answer state (spec.line_answered state.past (Ok event))) self.new) }
        ensures err { OnErr result (self.new.world ≡ self.old.world) }
    {
        let outcome = self.world.step(event)?;
        drop(outcome);
        Ok(())
    }

    /// Takes in what the next line says.
    fn take_in(&mut self, said: Result<Event, IllFormed>) -> Result<(), AllocError>
        ensures ok { (state : spec.State) → Holds state self.old → OnOk result (Holds (spec.after_answer state (spec.line_answered state.past said)) self.new) }
        ensures err { OnErr result (self.new.world ≡ self.old.world) }
    {
        match said {
            Ok(event) => self.record_event(event),
            Err(_) => {
                self.has_bad = true;
                Ok(())
            }
        }
    }

    /// What a line says, where it is read behind those that were run.
    fn read<'a>(
        &self,
        words: &mut Vec<&'a str>,
        line: &'a str,
    ) -> Result<Result<Event, IllFormed>, AllocError>
        ensures { IfOk result (λ said. said ≡ spec.event_in self.now.world line.now) }
    {
        let rows = self.world.core().ledger().as_slice();
        read_event_with(self.alloc, rows, words, line)
    }

    /// Runs a line. The list is for the words of the line. Where memory runs out it makes no entry.
    fn serve<'a>(&mut self, words: &mut Vec<&'a str>, line: &'a str) -> Result<(), AllocError>
        ensures ok { (state : spec.State) → Holds state self.old → OnOk result (Holds (spec.after_line state line.now) self.new) }
        ensures err { OnErr result (self.new.world ≡ self.old.world) }
    {
        let line = without_return(line);
        if is_skipped(line) {
            return Ok(());
        }
        let said = self.read(words, line)?;
        self.take_in(said)
    }

    /// Runs the lines. Where memory runs out, the entries of those before are held.
    fn serve_all<'a>(&mut self, lines: &[&'a str]) -> Result<(), AllocError>
        ensures ok { (state : spec.State) → Holds state self.old → OnOk result (Holds (spec.behind_lines state (map (λ line. line.now) lines.now)) self.new) }
        ensures err { (state : spec.State) → Holds state self.old → OnErr result (HoldsFirst state (map (λ line. line.now) lines.now) self.new) }
    {
        let mut words = Vec::new(self.alloc);
        for line in lines {
            self.serve(&mut words, line)?;
        }
        Ok(())
    }

    /// Runs a script on a cluster in which nothing has happened. Where memory runs out, the entries of the lines before are held.
    ///
    /// # Errors
    /// Out of memory.
    pub(crate) fn run(&mut self, script: &str) -> Result<Status, AllocError>
        requires { Holds spec.no_lines self.old }
        ensures entries { OnOk result (history_after self.new.world ≡ history_of_script script.now) }
        ensures status { IfOk result (λ status. status ≡ spec.script_status (spec.answers_of script.now)) }
        ensures err { OnErr result (AreFirstOf (history_of_script script.now) (history_after self.new.world)) }
    {
        let lines = pieces_between(self.alloc, script, '\n')?;
        self.serve_all(&lines)?;
        Ok(Status::by(self.has_bad))
    }
}
