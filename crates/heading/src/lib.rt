// The rules on a block, a `switch` and the head of a `for`, over the tables.
#![tactic(auto)]

mod blocks;
mod heads;
mod switches;

pub use blocks::{Opened, handle_block, push_all};
pub use heads::{Front, handle_for_statement};
pub use switches::handle_switch_statement;
