// Which parts a record may have, told by counts alone. In specs/ and proofs/: a row of such records is a tree that keeps the rules of feeding.
#![tactic(auto)]

mod rule;

pub use rule::{
    DeclSurvey, StmtSurvey, fits_expr, fits_stmt, head_expressions, init_statements, kind_declared,
    surveyed,
};
