// The rules on return and throw, over the tables.
#![tactic(auto)]

mod arguments;
mod jump;
mod merger;
mod newest;
mod returns;
mod throws;

pub use returns::handle_return_statement;
pub use throws::handle_throw_statement;
