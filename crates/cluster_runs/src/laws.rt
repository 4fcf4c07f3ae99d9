ghost use Rattle.cluster_runs.specs.Laws.{ScriptsAreRuns};

/// What the lines of a script are answered is what comes of the events that they make, stepped one after another from the beginning, as
/// `cluster_core::world::run` steps them. Does nothing.
pub fn scripts_are_runs()
    ensures { ScriptsAreRuns }
{}
