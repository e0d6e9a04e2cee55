// What the rules ask of trees, read from the tables. Nothing is written.
#![tactic(auto)]

mod expressions;
mod held;
mod statements;

pub use expressions::{
    conditional_expression_count_exceeded, has_negated_result, is_literal, is_literal_value,
};
pub use held::{Holder, can_remove_termination_statement};
pub use statements::{
    any_cares_about_scope, has_nested_break, is_terminated, statement_cares_about_scope,
};
