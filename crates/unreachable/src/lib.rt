// What is kept behind a jump, a jump at the end of a list, and the results in source order.
#![tactic(auto)]

mod jumps;
mod keeping;
mod noting;
mod order;

pub use jumps::drop_last_jump;
pub use keeping::keep_declarations;
pub use order::in_source_order;
