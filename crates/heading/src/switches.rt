// The rule on `switch`: the discriminant takes in what stands before it, and a single case is inlined.
// A routine is lent slices of the tables that it works on: what it is not lent is known to stay, with no clause.
ghost use Rattle.std.specs.Prelude.{◌≡◌, ◌≤◌, List, [], ◌∷◌, length};
ghost use Rattle.script.specs.Sound.{records_cases, records_optional};
ghost use Rattle.script.specs.Tree.{Cases, Expr, OptionalExpr, Stmts, if_then, no_alternate, strict_equality, switch};
ghost use Rattle.records.specs.declared.record.DeclRecord.{DeclRecord as DeclEntry};
ghost use Rattle.records.specs.declared.record.ExprRecord.{ExprRecord as ExprEntry};
ghost use Rattle.records.specs.declared.record.StmtRecord.{StmtRecord as StmtEntry};
ghost use Rattle.records.specs.Embedding.{cases_row, expr_row, optional_row, stmt_row, stmts_row};
ghost use Rattle.records.specs.Heap.{expr_at, stmt_at};
ghost use Rattle.records.specs.Owned.{Short};
ghost use Rattle.records.specs.Readable.{tables};
ghost use Rattle.records.specs.Rows.{At, Row, end};
ghost use Rattle.rules.specs.Literals.{is_literal};
ghost use Rattle.rules.specs.Switches.{case_block, handle_switch_statement, inline_switch_case, one_case?, push_discriminant};
ghost use Rattle.joining.specs.Needs.{EnoughFor};
ghost use Rattle.moves.specs.Lent.{Makes, SameSlices};
ghost use Rattle.moves.specs.Moved.{Turns};
ghost use Rattle.moves.specs.Read.{TellsStmts};
ghost use Rattle.heading.specs.Cases.{inlines, is_one_block, literal_or_none};

use joining::strict_equality;
use merging::{
    merge_last_expression_into_sequence, merge_leading_assignments_to_declaration,
    push_new_expression_stmt_to_result,
};
use moves::{Tables, drop_expr_row, give, link, record_at, set};
use pool::NOWHERE;
use predicates::{has_nested_break, is_literal};
use records::{ExprRecord, Pools, StmtRecord};
use script::StatementKind;

// Whether a row of statements is exactly one block.
fn one_block(stmts: &[StmtRecord], list: u32) -> bool
    ensures { TellsStmts is_one_block stmts.now list result }
{
    if list == NOWHERE {
        return false;
    }
    let first = record_at(stmts, list);
    first.kind == StatementKind::Block && first.next == NOWHERE
}

// The list of a case as one block: the case's record is that of the block, or is given back where the list is a block already.
fn block_of_case(stmts: &mut [StmtRecord], pools: &mut Pools, at: u32, list: u32) -> u32
    ensures { (es : List ExprEntry) (ds : List DeclEntry) (xs : Stmts) →
        Turns (tables es stmts.old ds) pools.old (tables es stmts.new ds) pools.new
        (stmt_at at ∷ []) ((stmt_at list, stmts_row xs) ∷ []) ((stmt_at result, stmt_row (case_block xs) end) ∷ []) }
{
    if one_block(stmts, list) {
        give(&mut pools.stmts, stmts, at);
        return list;
    }
    set(
        stmts,
        at,
        StmtRecord {
            kind: StatementKind::Block,
            exprs: NOWHERE,
            stmts: list,
            decls: NOWHERE,
            next: NOWHERE,
        },
    );
    at
}

// Keeps the discriminant as a statement; a literal is dropped.
fn keep_discriminant(
    sequences: bool,
    exprs: &mut [ExprRecord],
    stmts: &mut [StmtRecord],
    pools: &mut Pools,
    discriminant: u32,
    results: u32,
) -> u32
    ensures { (ds : List DeclEntry) (d : Expr) (r : Stmts) → 1 ≤ pools.old.exprs.count → 1 ≤ pools.old.stmts.count →
        Turns (tables exprs.old stmts.old ds) pools.old (tables exprs.new stmts.new ds) pools.new
        [] ((expr_at discriminant, expr_row d end) ∷ (stmt_at results, stmts_row r) ∷ [])
        ((stmt_at result, stmts_row (push_discriminant sequences (is_literal d) d r)) ∷ []) }
{
    if is_literal(exprs, discriminant) {
        drop_expr_row(exprs, pools, discriminant);
        return results;
    }
    push_new_expression_stmt_to_result(sequences, exprs, stmts, pools, discriminant, results)
}

// A default alone: its block stands behind the discriminant.
fn inline_default(
    sequences: bool,
    exprs: &mut [ExprRecord],
    stmts: &mut [StmtRecord],
    pools: &mut Pools,
    at: u32,
    case: u32,
    discriminant: u32,
    list: u32,
    results: u32,
) -> u32
    ensures { (ds : List DeclEntry) (d : Expr) (xs r : Stmts) → 1 ≤ pools.old.exprs.count → 1 ≤ pools.old.stmts.count →
        Turns (tables exprs.old stmts.old ds) pools.old (tables exprs.new stmts.new ds) pools.new
        (stmt_at «case» ∷ stmt_at at ∷ []) ((expr_at discriminant, expr_row d end) ∷ (stmt_at list, stmts_row xs) ∷ (stmt_at results, stmts_row r) ∷ [])
        ((stmt_at result, stmt_row (case_block xs) (stmts_row (push_discriminant sequences (is_literal d) d r))) ∷ []) }
{
    let kept = keep_discriminant(sequences, exprs, stmts, pools, discriminant, results);
    let block = block_of_case(stmts, pools, case, list);
    give(&mut pools.stmts, stmts, at);
    link(stmts, block, kept);
    block
}

// A case alone: an `if` on its test.
fn inline_test(
    exprs: &mut [ExprRecord],
    stmts: &mut [StmtRecord],
    pools: &mut Pools,
    at: u32,
    case: u32,
    discriminant: u32,
    test: u32,
    list: u32,
    results: u32,
)
    ensures { (ds : List DeclEntry) (d e : Expr) (xs : Stmts) (w : Row) → 1 ≤ pools.old.exprs.count →
        Turns (tables exprs.old stmts.old ds) pools.old (tables exprs.new stmts.new ds) pools.new
        (stmt_at «case» ∷ stmt_at at ∷ [])
        ((expr_at discriminant, expr_row d end) ∷ (expr_at test, expr_row e end) ∷ (stmt_at list, stmts_row xs) ∷ (stmt_at results, w) ∷ [])
        ((stmt_at at, stmt_row (if_then (strict_equality d e) (case_block xs) no_alternate) w) ∷ []) }
{
    let equal = strict_equality(exprs, pools, discriminant, test);
    let block = block_of_case(stmts, pools, case, list);
    set(
        stmts,
        at,
        StmtRecord {
            kind: StatementKind::If,
            exprs: equal,
            stmts: block,
            decls: NOWHERE,
            next: results,
        },
    );
}

// Whether a test that may be missing is a literal or missing.
fn is_literal_or_none(exprs: &[ExprRecord], test: u32) -> bool
    ensures { (ss : List StmtEntry) (ds : List DeclEntry) (v : OptionalExpr) → Short (tables exprs.now ss ds) →
        At (tables exprs.now ss ds) (expr_at test) (optional_row v end) → records_optional v ≤ length exprs.now →
        result ≡ literal_or_none v }
{
    test == NOWHERE || is_literal(exprs, test)
}

// Whether these are one case, its test a literal or none, without a break that would leave the switch.
fn can_inline(exprs: &[ExprRecord], stmts: &[StmtRecord], cases: u32) -> bool
    ensures { (ds : List DeclEntry) (cs : Cases) → Short (tables exprs.now stmts.now ds) →
        At (tables exprs.now stmts.now ds) (stmt_at cases) (cases_row cs) →
        (records_cases cs).exprs ≤ length exprs.now → (records_cases cs).stmts ≤ length stmts.now → result ≡ inlines cs }
{
    if cases == NOWHERE {
        return false;
    }
    let case = record_at(stmts, cases);
    case.next == NOWHERE
        && !has_nested_break(stmts, case.stmts)
        && is_literal_or_none(exprs, case.exprs)
}

// Inlines one case; other cases stay as they are.
fn inline_case(
    sequences: bool,
    exprs: &mut [ExprRecord],
    stmts: &mut [StmtRecord],
    pools: &mut Pools,
    at: u32,
    discriminant: u32,
    cases: u32,
    results: u32,
) -> u32
    ensures { (ds : List DeclEntry) (d : Expr) (cs : Cases) (r : Stmts) →
        1 ≤ pools.old.exprs.count → 1 ≤ pools.old.stmts.count →
        Turns (tables exprs.old stmts.old ds) pools.old (tables exprs.new stmts.new ds) pools.new
        (stmt_at at ∷ []) ((expr_at discriminant, expr_row d end) ∷ (stmt_at cases, cases_row cs) ∷ (stmt_at results, stmts_row r) ∷ [])
        ((stmt_at result, stmts_row (inline_switch_case sequences d (one_case? cs) r)) ∷ []) }
{
    if !can_inline(exprs, stmts, cases) {
        set(
            stmts,
            at,
            StmtRecord {
                kind: StatementKind::Switch,
                exprs: discriminant,
                stmts: cases,
                decls: NOWHERE,
                next: results,
            },
        );
        return at;
    }
    let case = record_at(stmts, cases);
    if case.exprs == NOWHERE {
        return inline_default(
            sequences,
            exprs,
            stmts,
            pools,
            at,
            cases,
            discriminant,
            case.stmts,
            results,
        );
    }
    inline_test(
        exprs,
        stmts,
        pools,
        at,
        cases,
        discriminant,
        case.exprs,
        case.stmts,
        results,
    );
    at
}

// A `switch` after the results before it.
pub fn handle_switch_statement(
    sequences: bool,
    tables: &mut Tables,
    at: u32,
    discriminant: u32,
    cases: u32,
    results: u32,
) -> u32
    ensures lent { SameSlices tables.old tables.new }
    ensures makes { (d : Expr) (cs : Cases) (r : Stmts) → EnoughFor (switch d cs) r tables.old.pools →
        Makes tables.old tables.new
        (stmt_at at ∷ []) ((expr_at discriminant, expr_row d end) ∷ (stmt_at cases, cases_row cs) ∷ (stmt_at results, stmts_row r) ∷ [])
        ((stmt_at result, stmts_row (handle_switch_statement sequences d cs r)) ∷ []) }
{
    let merged = merge_last_expression_into_sequence(
        sequences,
        tables.exprs,
        tables.stmts,
        &mut tables.pools,
        discriminant,
        results,
    );
    // A field cannot be lent to read beside one that is lent to write, so the statements are borrowed by themselves.
    let stmts = &mut *tables.stmts;
    let worked = merge_leading_assignments_to_declaration(
        false,
        tables.exprs,
        stmts,
        tables.decls,
        &mut tables.pools,
        merged.target,
        merged.results,
    );
    inline_case(
        sequences,
        tables.exprs,
        tables.stmts,
        &mut tables.pools,
        at,
        worked.target,
        cases,
        worked.results,
    )
}
