// Reading: a byte is lexed, a whole command takes its parts off the stacks, and what it makes goes on one of them.
#![tactic(auto)]

mod build;
mod judging;
mod making;
mod reader;

pub use judging::{Taken, feed_bytes};
pub use reader::{Step, read_byte};
