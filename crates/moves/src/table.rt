// What the records of all three tables have in common.
ghost use Rattle.std.specs.Prelude.{◌≡◌};
ghost use Rattle.records.specs.TableOf.{TableOf, Tabled, decl_table, expr_table, stmt_table};
ghost use Rattle.records.proofs.Tables.{decls_tabled, exprs_tabled, stmts_tabled};

use pool::Linked;
use records::{DeclRecord, ExprRecord, StmtRecord};
use script::{ExpressionKind, StatementKind, Table};

// A record of one of the three tables.
pub trait Record: Linked<Table = Table> + Copy {
    ghost table_of: { TableOf Self };

    // What is read past the end of the table.
    fn blank() -> Self
        ensures { result ≡ table_of.blank };

    ghost tabled: { Tabled Self table_of Self.link Self.relinked };
}

impl Record for ExprRecord {
    ghost table_of = { expr_table };

    ghost tabled = { exprs_tabled };

    fn blank() -> ExprRecord {
        ExprRecord {
            kind: ExpressionKind::Number(0),
            first: 0,
            next: 0,
        }
    }
}

impl Record for StmtRecord {
    ghost table_of = { stmt_table };

    ghost tabled = { stmts_tabled };

    fn blank() -> StmtRecord {
        StmtRecord {
            kind: StatementKind::Empty,
            exprs: 0,
            stmts: 0,
            decls: 0,
            next: 0,
        }
    }
}

impl Record for DeclRecord {
    ghost table_of = { decl_table };

    ghost tabled = { decls_tabled };

    fn blank() -> DeclRecord {
        DeclRecord {
            name: 0,
            value: 0,
            next: 0,
        }
    }
}
