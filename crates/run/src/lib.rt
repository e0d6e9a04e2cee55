// What a body does when it is run. The definition stands in specs/; its laws are proved here, on functions that do nothing.
#![tactic(auto)]

mod laws;

pub use laws::{
    cut_only_when_spent, empty_record_changes_nothing, events_only_grow, examples_hold,
    loop_bound_is_the_turns, more_turns_change_nothing, records_for_all_lists,
    settings_stay_in_sight, strict_equality_is_equality, turns_never_grow, values_fit,
};
