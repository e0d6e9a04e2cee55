// The three tables and their spare records, lent to be worked on.
ghost use Rattle.std.specs.Prelude.{◌≡◌, slice_index_or};
ghost use Rattle.records.specs.Heap.{blank_stmt};

use crate::cells::record_at;
use records::{DeclRecord, ExprRecord, Pools, StmtRecord};

pub struct Tables<'a> {
    pub exprs: &'a mut [ExprRecord],
    pub stmts: &'a mut [StmtRecord],
    pub decls: &'a mut [DeclRecord],
    pub pools: Pools,
}

// With a field lent on to be read, the proof did not close: it is not known to stay. So what reads the tables borrows them whole.
impl Tables<'_> {
    pub fn stmts(&self) -> &[StmtRecord]
        ensures { result.now ≡ self.now.stmts.now }
    {
        self.stmts
    }

    // The statement or case at a place.
    pub fn stmt(&self, at: u32) -> StmtRecord
        ensures { result ≡ slice_index_or self.now.stmts.now at blank_stmt }
    {
        record_at(self.stmts, at)
    }
}
