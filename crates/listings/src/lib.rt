// The written bytes of a body as text that a person can read.
#![tactic(auto)]

mod command;
mod telling;

pub use telling::listing;
