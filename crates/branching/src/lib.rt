// The rules on an `if` by itself, over the tables.
#![tactic(auto)]

mod branches;
mod logical;
mod minimize;
mod parts;
mod statements;
mod views;

pub use minimize::try_minimize_if;
pub use parts::IfParts;
pub use views::is_if;
