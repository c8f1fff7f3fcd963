// Routes, plans and levels: each function carries a theorem in its contract, and does nothing.
#![tactic(auto)]

ghost use Rattle.routes.specs.Routes.{LawfulIsOrdered};
ghost use Rattle.routes.specs.Ranks.{PlansAreAscending, OneAscendingList};
ghost use Rattle.routes.specs.Plans.{CleanIsEveryRouteHit, CleanAtOneIsCleanAtAll, FreshLevelIsOne, OneEarliestUnlessBlocked, EarliestExistsUnlessBlocked, EarliestIsOne, BlockedHasNoPlan, BlockedIsBarredRow, SmallestIsFewest};
ghost use Rattle.routes.specs.Standing.{StandingRoutesBoundCost, RoutesApartBoundPlans, RoutesStandUpToCost, RoutesApartUpToSize, ApartIsOneEach};
ghost use Rattle.routes.specs.Flows.{FlowsSplitIntoRoutes, FlowsBoundCuts, FlowsAreSmall, CostIsCapacity};
ghost use Rattle.routes.specs.Residuals.{BorderIsFullCut, BorderIsEarliestCut, BorderIsTheEarliest, OneMoreStandsWhereReached};
ghost use Rattle.routes.specs.Paths.{TrailsAddOne};
ghost use Rattle.routes.specs.Traces.{UnitsHaveRows, TracesAreRoutes, OneRowEach};
ghost use Rattle.routes.specs.Stored.{SlotsAddUp, WritesAreChanges};
ghost use Rattle.routes.specs.Jobs.{ClosingProductDoesNotCount, SmallJobs};

// The operands of a lawful circuit have lower ranks than their wires.
pub fn lawful_is_ordered()
    ensures { LawfulIsOrdered }
{}

// At limit two a plan is clean exactly when it has a wire of every route.
pub fn clean_is_every_route_hit()
    ensures { CleanIsEveryRouteHit × CleanAtOneIsCleanAtAll × FreshLevelIsOne }
{}

// The product that closes a route is not one of its wires: a plan that has it may be unclean.
pub fn closing_product_does_not_count()
    ensures { ClosingProductDoesNotCount }
{}

// Routes that stand are at most as many as a clean plan costs; at price 1, as it has wires.
pub fn routes_bound_plans()
    ensures { StandingRoutesBoundCost × RoutesApartBoundPlans }
{}

// Unless some route has only barred wires there is exactly one earliest smallest plan.
pub fn one_earliest_unless_blocked()
    ensures { OneEarliestUnlessBlocked × EarliestExistsUnlessBlocked × EarliestIsOne }
{}

// If some route has only barred wires no plan fits.
pub fn blocked_has_no_plan()
    ensures { BlockedHasNoPlan × BlockedIsBarredRow }
{}

// At price 1 a cheapest plan is one with fewest wires.
pub fn smallest_is_fewest()
    ensures { SmallestIsFewest }
{}

// A flow splits into as many routes as it has units, one row for each unit.
pub fn flows_split_into_routes()
    ensures { FlowsSplitIntoRoutes × UnitsHaveRows × TracesAreRoutes × OneRowEach }
{}

// No flow has more units than can pass a cut, nor than all prices together.
pub fn flows_are_small()
    ensures { FlowsBoundCuts × FlowsAreSmall }
{}

// A unit pushed along a path of residual steps with distinct places adds one route.
pub fn trails_add_one()
    ensures { TrailsAddOne }
{}

// Where no goal is reached, the border is the earliest cut of as much capacity as there are units, and the earliest plan.
pub fn border_is_earliest_cut()
    ensures { BorderIsFullCut × BorderIsEarliestCut × BorderIsTheEarliest }
{}

// One more route can stand exactly where the residual steps reach a goal.
pub fn one_more_stands_where_reached()
    ensures { OneMoreStandsWhereReached }
{}

// As many routes as any number up to the cost of a cheapest plan can stand, and no more.
pub fn routes_stand_up_to_cost()
    ensures { RoutesStandUpToCost × RoutesApartUpToSize }
{}

// Rows share no unbarred wire just where at most one passes each.
pub fn apart_is_one_each()
    ensures { ApartIsOneEach }
{}

// A plan is one ascending list, and costs the capacity of its wires.
pub fn plans_are_ascending()
    ensures { PlansAreAscending × OneAscendingList × CostIsCapacity }
{}

// A flow kept in lists changes by one where one number of them does.
pub fn writes_are_changes()
    ensures { SlotsAddUp × WritesAreChanges }
{}

// What becomes of small circuits.
pub fn small_jobs()
    ensures { SmallJobs }
{}
