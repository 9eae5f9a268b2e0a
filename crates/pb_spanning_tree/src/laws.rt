//! Laws of the spanning tree of a plan.

ghost use Rattle.pb_spanning_tree.specs.Laws.{LeastCost, OneSolution, OneTree, Spans};
ghost use Rattle.pb_spanning_tree.specs.Planned.{ConvergedTree, PlannedArePlanned};
ghost use Rattle.pb_spanning_tree.specs.Records.{LastForest, ShapeIsLast};

/// Vectors that no path of a bridge betters, and that rise along the paths that bridges take, are those of the spanning
/// tree (IEEE 802.1D-2004 clause 17.6).
pub fn one_solution()
    ensures { OneSolution }
{}

/// In vectors that no path of a bridge betters, and that rise along the paths that bridges take, the root of each
/// bridge is the least identifier of the bridges that links with two enabled ends lead to. The root path cost is the
/// least sum of the costs of the near ends of such links on the way there (IEEE 802.1D-2004 clauses 17.5 and 17.6).
pub fn least_cost()
    ensures { LeastCost }
{}

/// If the bridges of a sound plan have converged and no Root port's path cost is held, each bridge has the root priority
/// vector of the spanning tree of the plan and the disabled ends, each port has its role there, and the links whose ends
/// are both Forwarding are its links (IEEE 802.1D-2004 clauses 17.6 and 17.7). So two networks of one plan with the
/// same ends disabled that have converged have the same roles and the same active links, whatever happened before.
pub fn one_tree()
    ensures { OneTree }
{}

/// After any steps the bridges of a sound plan are in the plan's order, with its identifiers, which are distinct.
/// They have the ports of its links, with their path costs and priorities, and no others. Each address of the plan
/// has six octets.
pub fn planned_are_planned()
    ensures { PlannedArePlanned }
{}

/// If the bridges of a sound plan have converged after any steps, and no Root port's path cost is held, they form
/// the spanning tree of the plan and of the ports that they have disabled (IEEE 802.1D-2004 clauses 17.6 and 17.7).
/// Each address of the plan has six octets.
pub fn converged_tree()
    ensures { ConvergedTree }
{}

/// States that at the end of a lawful record of a plan with RSTP the machines of the bridges have the port states that
/// the bridges' steps report. A provider port starts Discarding, and each reported change gives its new state.
pub fn shape_is_last()
    ensures { ShapeIsLast }
{}

/// States that the links of each service whose ends are both Forwarding at the end of a lawful record form no loop, if
/// the plan is sound and has RSTP, the machines of its bridges are settled there, and no Root port's path cost is held
/// (IEEE 802.1D-2004 clause 17).
pub fn last_forest()
    ensures { LastForest }
{}

/// If the bridges of a sound plan have converged and no Root port's path cost is held, links whose ends are both
/// Forwarding join exactly the bridges that links with two enabled ends join (IEEE 802.1D-2004 clause 17).
pub fn spans()
    ensures { Spans }
{}
