// Tables of records made in the heap, for programs that lend them to the calls of `sheet`.
#![tactic(auto)]

mod pass;

use script::{ExpressionKind, StatementKind, Word};
use sheet::{
    DeclRecord, Draft, ExprRecord, Fed, Lent, SheetFault, StmtRecord, Unclosed, Whole, Wrote,
};
use std::alloc::{AllocError, Global};

// How many records each table has.
#[derive(Clone, Copy)]
pub struct Sizes {
    pub exprs: usize,
    pub stmts: usize,
    pub decls: usize,
}

impl Sizes {
    // The records of all three tables, and so the marks that they want.
    pub fn total(self) -> usize {
        self.exprs
            .saturating_add(self.stmts)
            .saturating_add(self.decls)
    }
}

// What each record of new tables holds. It is of no account: a start writes the links, and records are written as they are taken.
const EXPR: ExprRecord = ExprRecord {
    kind: ExpressionKind::Word(Word::Null),
    first: 0,
    next: 0,
};

const STMT: StmtRecord = StmtRecord {
    kind: StatementKind::Empty,
    exprs: 0,
    stmts: 0,
    decls: 0,
    next: 0,
};

const DECL: DeclRecord = DeclRecord {
    name: 0,
    value: 0,
    next: 0,
};

#[derive(Drop)]
pub struct Tables {
    pub exprs: Vec<ExprRecord>,
    pub stmts: Vec<StmtRecord>,
    pub decls: Vec<DeclRecord>,
    pub marks: Vec<u8>,
}

impl Tables {
    // Tables of these sizes with a mark for each record.
    pub fn new(heap: Global, sizes: Sizes) -> Result<Tables, AllocError> {
        Ok(Tables {
            exprs: vec![in heap; EXPR; sizes.exprs]?,
            stmts: vec![in heap; STMT; sizes.stmts]?,
            decls: vec![in heap; DECL; sizes.decls]?,
            marks: vec![in heap; 0; sizes.total()]?,
        })
    }

    pub fn start(&mut self) -> Result<Draft, SheetFault> {
        sheet::start(
            &mut self.exprs,
            &mut self.stmts,
            &mut self.decls,
            &mut self.marks,
        )
    }

    pub fn feed(&mut self, draft: Draft, bytes: &[u8]) -> Fed {
        sheet::feed(
            draft,
            &mut self.exprs,
            &mut self.stmts,
            &mut self.decls,
            &mut self.marks,
            bytes,
        )
    }

    pub fn close(&mut self, draft: Draft) -> Result<Whole, Unclosed> {
        sheet::close(
            draft,
            Lent {
                exprs: &self.exprs,
                stmts: &self.stmts,
                decls: &self.decls,
            },
            &mut self.marks,
        )
    }

    pub fn write(&mut self, whole: Whole, out: &mut [u8]) -> Wrote {
        sheet::write(
            whole,
            Lent {
                exprs: &self.exprs,
                stmts: &self.stmts,
                decls: &self.decls,
            },
            &mut self.marks,
            out,
        )
    }
}

// Ends a draft: it is taken apart, and its numbers are let go. A pattern with `..` takes no such value apart.
pub fn end_draft(draft: Draft) {
    let Draft {
        stage: _,
        exprs: _,
        stmts: _,
        decls: _,
        pools: _,
    } = draft;
}

// Ends a whole sheet likewise.
pub fn end_whole(whole: Whole) {
    let Whole { body: _, pools: _ } = whole;
}
