// The records of the three tables, and the sheet's own numbers.
ghost use Rattle.std.specs.Prelude.{◌≡◌};
ghost use Rattle.std.proofs.Common.{rules};
ghost use Rattle.script.specs.declared.Table.TheVariants.{Declarators, Expressions, Statements};

use pool::{Linked, Pool};
use script::{Awaiting, ExpressionKind, StatementKind, Table};

// An expression: its parts are a row that begins at `first`.
#[derive(Clone, Copy)]
pub struct ExprRecord {
    pub kind: ExpressionKind,
    pub first: u32,
    pub next: u32,
}

// A statement or a case: its expressions, its statements or cases, and its declarators are a row each.
// A `for` has its expressions in source order, and a declaration before its body.
#[derive(Clone, Copy)]
pub struct StmtRecord {
    pub kind: StatementKind,
    pub exprs: u32,
    pub stmts: u32,
    pub decls: u32,
    pub next: u32,
}

// A declarator: its value is a row of one expression or none.
#[derive(Clone, Copy)]
pub struct DeclRecord {
    pub name: u8,
    pub value: u32,
    pub next: u32,
}

// The spare records of each table.
#[derive(Clone, Copy)]
pub struct Pools {
    pub exprs: Pool,
    pub stmts: Pool,
    pub decls: Pool,
}

// A row of items, the newest first, and how many there are.
#[derive(Clone, Copy)]
pub struct Stack {
    pub top: u32,
    pub count: u32,
}

// A draft reads commands until its body is complete; the body is a row of statements.
// Neither stage is a failure, so this is an enum of its own and no `Result`.
#[derive(Clone, Copy)]
pub enum Stage {
    Reading(Awaiting),
    Complete(u32),
}

// A sheet that is being read. It is neither copied nor let go: each call hands it on.
pub struct Draft {
    pub stage: Stage,
    pub exprs: Stack,
    pub stmts: Stack,
    pub decls: Stack,
    pub pools: Pools,
}

// A sheet with its body, a row of statements.
pub struct Whole {
    pub body: u32,
    pub pools: Pools,
}

// Each kind of record has an impl of its own, as the language wants it: the type alone differs.
impl Linked for ExprRecord {
    type Table = Table;

    ghost table = { Expressions };

    ghost link = { λ x. x.next };

    ghost relinked = { λ x n. record { kind = x.kind; first = x.first; next = n } };

    ghost linked = { Prim.search rules };

    fn table() -> Table {
        Table::Expressions
    }

    fn next(&self) -> u32 {
        self.next
    }

    fn set_next(&mut self, to: u32) {
        self.next = to;
    }
}

impl Linked for StmtRecord {
    type Table = Table;

    ghost table = { Statements };

    ghost link = { λ x. x.next };

    ghost relinked = { λ x n. record { kind = x.kind; exprs = x.exprs; stmts = x.stmts; decls = x.decls; next = n } };

    ghost linked = { Prim.search rules };

    fn table() -> Table {
        Table::Statements
    }

    fn next(&self) -> u32 {
        self.next
    }

    fn set_next(&mut self, to: u32) {
        self.next = to;
    }
}

impl Linked for DeclRecord {
    type Table = Table;

    ghost table = { Declarators };

    ghost link = { λ x. x.next };

    ghost relinked = { λ x n. record { name = x.name; value = x.value; next = n } };

    ghost linked = { Prim.search rules };

    fn table() -> Table {
        Table::Declarators
    }

    fn next(&self) -> u32 {
        self.next
    }

    fn set_next(&mut self, to: u32) {
        self.next = to;
    }
}
