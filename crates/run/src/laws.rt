// What filling promises: each function's contract names a theorem.
ghost use Rattle.run.specs.Runs.{FilledIsRun, SourcesDetermine};

// A filled table whose loop closes is a run.
pub fn filled_is_run()
    ensures { FilledIsRun }
{}

// Tables that the diagram makes have equal values where their sources have: a filled table is the only one with its
// sources.
pub fn sources_determine()
    ensures { SourcesDetermine }
{}
