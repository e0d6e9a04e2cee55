// The rules that join expressions, over the tables.
#![tactic(auto)]

mod items;
mod logical;
mod sequence;
mod values;

pub use items::{minimize_conditional, minimize_not};
pub use logical::join_with_left_associative_op;
pub use sequence::join_sequence;
pub use values::{strict_equality, void_0};
