//! The tree of bodies and of dofs, and the laws of sums along it.
#![tactic(auto)]

pub mod laws;

pub use laws::{
    above_goes_by_parents, above_is_an_order, above_is_transitive, carried_down_is_sum_moving,
    carried_up_is_sum_under, earlier_is_above, first_is_over_listed, layout_is_forest,
    listing_is_whole, moved_are_below, movers_are_the_parents_and_its_own, moving_passes_down,
    none_moves_world, place_is_height, sum_down_is_plain, sum_is_over_listed, sum_up_is_plain,
    two_above_a_third,
};
