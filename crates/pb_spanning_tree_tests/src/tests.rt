//! Spanning trees of small plans, with the expected values written out.

mod chain;
mod drawn;
mod figures;
mod more_figures;
mod plans;
mod small;

use pb_spanning_tree::{
    converged_tree, last_forest, least_cost, one_solution, one_tree, planned_are_planned,
    shape_is_last, spans,
};

#[test]
fn laws_stand() {
    one_solution();
    least_cost();
    one_tree();
    planned_are_planned();
    converged_tree();
    spans();
    shape_is_last();
    last_forest();
}
