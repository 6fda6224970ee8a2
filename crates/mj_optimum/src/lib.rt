//! The dual problem of the contact forces: its cost, its sweeps and its certificate as definitions,
//! and the laws that a solver, a certificate and a checker stand on.
#![tactic(auto)]

pub mod laws;
pub mod same;
pub mod stop;

pub use laws::{
    bound_holds, box_holds, change_never_rises, cost_expands, gradient_over_rows,
    iterate_is_feasible, one_force_changes, optimum_holds, optimum_is_only, parabola_is_least,
    rise_is_least, rise_past_vertex, shortfall_from_zero, stop_is_first, sweep_lowers_cost,
};
pub use same::{same_certificate, same_iterates, same_promises};
pub use stop::Stop;
