// Sheets of script: bytes are fed into record tables that the caller lends, closed, and written back.
#![tactic(auto)]

mod closing;
mod copying;
mod feeding;
mod limits;
mod output;
mod starting;

pub use closing::{Unclosed, close};
pub use copying::{Copied, Refused, Spared, copy};
pub use faults::{ReadFault, SheetFault};
pub use feeding::{Fed, feed};
pub use limits::{DECL_LIMIT, EXPR_LIMIT, STMT_LIMIT};
pub use output::{Wrote, write};
pub use records::{DeclRecord, Draft, ExprRecord, Lent, Pools, Stack, Stage, StmtRecord, Whole};
pub use starting::start;
