// Single records of the tables: read, written, taken from their pool and given back. No place is too large for these
// functions: outside its table nothing is read and nothing is written.
#![tactic(auto)]

mod cells;
mod drops;
mod links;
mod table;
mod tables;

pub use cells::{give, record_at, set, take};
pub use drops::{drop_decl_row, drop_expr_row, drop_stmt_row};
pub use links::{append, detach, join_rows, last_of_row, link, push_all, relink};
pub use table::Record;
pub use tables::Tables;
