// What a host knows of an expression: whether it is harmless, whether its value is undefined, and its truth in a test.
#![tactic(auto)]

mod bare;
mod host;
mod literal;
mod reader;
mod silent;

pub use bare::Bare;
pub use host::{Facts, Host, all_facts, may_drop};
pub use reader::Reader;
