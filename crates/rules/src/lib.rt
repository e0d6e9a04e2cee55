// The rules of fusing, on trees: see specs/.
#![tactic(auto)]

mod laws;

pub use laws::{
    altered_is_bytes_differ, altered_is_lighter, depth_is_enough, dropped_lets_alter_runs,
    fused_records_are_bounded, fusing_keeps_names, fusing_keeps_runs, fusing_keeps_the_budget,
    fusing_keeps_the_rules, fusing_lightens, marked_cases_hold, marked_cases_open,
    mergers_stop_at_500, no_neighbours, opened_depth_is_enough, records_suffice, weight_suffices,
    wrong_readings_alter_runs,
};
