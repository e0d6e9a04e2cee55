// The exact check of lent tables: whether they hold a sheet, whatever stands in them.
#![tactic(auto)]

mod check;

pub use check::{clear, draft_held, whole_held};
