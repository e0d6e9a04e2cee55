// The rules that merge an expression with the newest results, over the tables.
#![tactic(auto)]

mod declaration;
mod declarators;
mod last;
mod leading;
mod names;
mod statement;
mod worked;

pub use declaration::handle_variable_declaration;
pub use declarators::merge_assignment_to_declaration;
pub use last::{merge_last_expression_into_sequence, push_new_expression_stmt_to_result};
pub use leading::merge_leading_assignments_to_declaration;
pub use names::append_names;
pub use statement::handle_expression_statement;
pub use worked::Worked;
