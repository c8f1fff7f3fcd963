// The flow of a planning, kept as numbers in the rows of lent memory: grown along paths, traced as routes, and closed as a plan.
// The functions of its modules take rows, a type of the crate below, and have no struct that keeps what holds of the flow or of a wire: as a ghost field it would
// have to be shown again at each write, and `Flows` does not hold while a path is pushed or a bar is set.
// The functions here carry theorems in their contracts, and do nothing.
#![tactic(auto)]

ghost use Rattle.flows.specs.Stacks.{PathsAreTrails};
ghost use Rattle.flows.specs.Residual.{ResidualLength, ResidualInside, ResidualSteps};
ghost use Rattle.flows.specs.Found.{FoundIsStack, MissedIsClosed};
ghost use Rattle.flows.specs.Closing.{BorderIsAsMany, PlanIsEarliest};

pub mod grow;
pub mod moves;
pub mod number;
pub mod plan;
pub mod trace;

// The steps by number are those of the flow; whatever the memory holds, they are as many as the lists say and lead to places of the wires.
pub fn residual_steps()
    ensures { ResidualSteps × ResidualLength × ResidualInside }
{}

// What a search finds is a path to grow along; where it finds nothing, its marks are all that steps reach.
pub fn searches_decide()
    ensures { FoundIsStack × PathsAreTrails × MissedIsClosed }
{}

// Where a search finds nothing, the border is the earliest plan.
pub fn plan_is_earliest()
    ensures { BorderIsAsMany × PlanIsEarliest }
{}
