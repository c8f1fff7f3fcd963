// What the law of runs says of single calls and of two calls: each function carries theorems in its contract, and does nothing.
#![tactic(auto)]

ghost use Rattle.run_laws.specs.Consequences.{BarredByTheLast, TestedInOrder, RoutesStayApart, RefusalsAlterNothing, ClosedAfterK, KGrownThenClosed, AnswersAreOne, RunsGoOn};

// A wire is barred exactly if the last bar or unbar of its rank was a bar, and not one refused by 12.
pub fn barred_by_the_last()
    ensures { BarredByTheLast }
{}

// Each call is tested in its order, and a refusal alters nothing.
pub fn refusals_alter_nothing()
    ensures order { TestedInOrder }
    ensures unaltered { RefusalsAlterNothing }
{}

// Routes that were given stay the same, and apart, until a bar or unbar is obeyed.
pub fn routes_stay_apart()
    ensures { RoutesStayApart }
{}

// A smallest plan of k wires takes k grown steps and then closed.
pub fn k_grown_then_closed()
    ensures closed { ClosedAfterK }
    ensures grown { KGrownThenClosed }
{}

// The law leaves a call one answer, but for which routes are given.
pub fn answers_are_one()
    ensures { AnswersAreOne }
{}

// Every call has an answer that the law allows.
pub fn runs_go_on()
    ensures { RunsGoOn }
{}
