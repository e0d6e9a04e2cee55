// The records of the three tables, the sheet's own numbers, and the turning of a row.
// What it means that tables hold trees stands in specs/: rows, who owns a record, and what a sheet holds.
#![tactic(auto)]

mod lent;
mod record;
mod turning;
mod walk;

pub use lent::Lent;
pub use record::{DeclRecord, Draft, ExprRecord, Pools, Stack, Stage, StmtRecord, Whole};
pub use turning::{TurnedRow, turn};
pub use walk::{Walk, along};
