// The rule on blocks: a list of statements is opened into the results where none of them declares a name of the block's own.
// A routine is lent slices of the tables that it works on: what it is not lent is known to stay, with no clause.
ghost use Rattle.std.specs.Prelude.{not as negated, List, [], ◌∷◌};
ghost use Rattle.script.specs.Tree.{Stmts};
ghost use Rattle.records.specs.declared.record.DeclRecord.{DeclRecord as DeclEntry};
ghost use Rattle.records.specs.declared.record.ExprRecord.{ExprRecord as ExprEntry};
ghost use Rattle.records.specs.declared.record.Pools.{Pools as Spare};
ghost use Rattle.records.specs.Embedding.{stmts_row};
ghost use Rattle.records.specs.Heap.{stmt_at};
ghost use Rattle.records.specs.Readable.{tables};
ghost use Rattle.rules.specs.Statements.{any_cares_about_scope, handle_block, push_all};
ghost use Rattle.moves.specs.Moved.{Turns};
ghost use Rattle.moves.specs.Read.{TellsStmts};

use moves::{give, set};
use pool::NOWHERE;
use predicates::any_cares_about_scope;
use records::{Pools, StmtRecord};
use script::StatementKind;

// The results after a block, and whether its statements are among them now.
// Two variants that each hold the results would be no plainer: whichever it is, one goes on with them.
#[derive(Clone, Copy)]
pub struct Opened {
    pub results: u32,
    pub opened: bool,
}

// Puts the statements of a row one after the other onto the results.
pub fn push_all(stmts: &mut [StmtRecord], list: u32, results: u32) -> u32
    ensures { (es : List ExprEntry) (ds : List DeclEntry) (p : Spare) (xs ys : Stmts) →
        Turns (tables es stmts.old ds) p (tables es stmts.new ds) p
        [] ((stmt_at list, stmts_row xs) ∷ (stmt_at results, stmts_row ys) ∷ []) ((stmt_at result, stmts_row (push_all xs ys)) ∷ []) }
{
    moves::push_all(stmts, list, results)
}

// Opens a block into the results; one that declares names of its own stays as it is.
pub fn handle_block(
    stmts: &mut [StmtRecord],
    pools: &mut Pools,
    at: u32,
    list: u32,
    results: u32,
) -> Opened
    ensures turns { (es : List ExprEntry) (ds : List DeclEntry) (xs ys : Stmts) →
        Turns (tables es stmts.old ds) pools.old (tables es stmts.new ds) pools.new
        (stmt_at at ∷ []) ((stmt_at list, stmts_row xs) ∷ (stmt_at results, stmts_row ys) ∷ [])
        ((stmt_at result.results, stmts_row (handle_block xs ys)) ∷ []) }
    ensures tells { TellsStmts (λ xs. negated (any_cares_about_scope xs)) stmts.old list result.opened }
{
    if any_cares_about_scope(stmts, list) {
        set(
            stmts,
            at,
            StmtRecord {
                kind: StatementKind::Block,
                exprs: NOWHERE,
                stmts: list,
                decls: NOWHERE,
                next: results,
            },
        );
        return Opened {
            results: at,
            opened: false,
        };
    }
    give(&mut pools.stmts, stmts, at);
    Opened {
        results: push_all(stmts, list, results),
        opened: true,
    }
}
