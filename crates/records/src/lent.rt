// The three tables as they are handed to what only reads them.
use crate::record::{DeclRecord, ExprRecord, StmtRecord};

// The tables, lent to be read.
#[derive(Clone, Copy)]
pub struct Lent<'a> {
    pub exprs: &'a [ExprRecord],
    pub stmts: &'a [StmtRecord],
    pub decls: &'a [DeclRecord],
}
