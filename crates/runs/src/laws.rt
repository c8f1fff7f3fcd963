// What is proved of runs: each function carries theorems in its contract, and does nothing.
ghost use Rattle.runs.specs.Told.{ToldRunsAreLawful};
ghost use Rattle.runs.specs.Shown.{FlowsDoWhatIsTold};

// A run of calls that do what is told is lawful.
pub fn told_runs_are_lawful()
    ensures { ToldRunsAreLawful }
{}

// Calls that keep a flow and a search do what is told.
pub fn flows_do_what_is_told()
    ensures { FlowsDoWhatIsTold }
{}
