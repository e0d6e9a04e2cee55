// Putting what a command makes: its parts come off the stacks, and its record goes on one of them.
// The tables come as slices: their spares lie in the draft, and a slice is known to be as long afterwards with no clause.
ghost use Rattle.std.specs.Prelude.{◌≡◌, ℕ, ◌+◌, ◌-◌, ◌<◌, ◌≤◌, true, false, map, length};
ghost use Rattle.pool.specs.Chain.{nowhere};
ghost use Rattle.records.specs.Rows.{Row, end};
ghost use Rattle.shapes.specs.Shape.{survey, decl_survey};
ghost use Rattle.records.specs.Turning.{turned_exprs, turned_decls, front};
ghost use Rattle.reading.specs.Surveying.{ExprTable, StmtTable, DeclTable, Surveys, SurveyedAs, DeclSurveys, nothing_seen, no_decls_seen, HasCase};
ghost use Rattle.reading.specs.Building.{Took, PutExpr, PutDeclarator, EnoughCounted, WantingCounted, stmt_put, draft_with_stmt, FitsAs, PutStmt, AloneCounted, PutBody};

use crate::making::Parts;
use faults::{ReadFault, SheetFault};
use pool::{Linked, NOWHERE, Pool};
use records::{DeclRecord, Draft, ExprRecord, Stack, Stage, StmtRecord, along, turn};
use script::{Awaiting, DeclarationKind, ExpressionKind, StatementKind, Table};
use shapes::{DeclSurvey, StmtSurvey, fits_stmt, kind_declared, surveyed};

// A spare record of a table.
fn take<R: Linked<Table = Table>>(pool: &mut Pool, table: &[R]) -> Result<u32, SheetFault>
    ensures { Took result R.table (map R.link table.now) pool.old pool.new }
{
    Ok(pool.take(table)?)
}

// An expression with its parts, from the top of the stack.
pub fn put_expr(
    draft: &mut Draft,
    exprs: &mut [ExprRecord],
    kind: ExpressionKind,
    parts: u32,
) -> Result<(), ReadFault>
    requires { draft.old.exprs.count < nowhere }
    ensures { PutExpr result kind parts draft.old exprs.old draft.new exprs.new }
{
    if draft.exprs.count < parts {
        return Err(ReadFault::TooFew);
    }
    let at = take(&mut draft.pools.exprs, exprs)?;
    let turned = turn(exprs, draft.exprs.top, parts);
    exprs[at as usize] = ExprRecord {
        kind,
        first: turned.row,
        next: turned.rest,
    };
    draft.exprs = Stack {
        top: at,
        count: draft.exprs.count - parts + 1,
    };
    draft.stage = Stage::Reading(Awaiting::Command);
    Ok(())
}

// A declarator, with a value from the top of the stack of expressions if it has one.
pub fn put_declarator(
    draft: &mut Draft,
    exprs: &mut [ExprRecord],
    decls: &mut [DeclRecord],
    name: u8,
    parts: u32,
) -> Result<(), ReadFault>
    requires { draft.old.decls.count < nowhere }
    ensures { PutDeclarator result name parts draft.old exprs.old decls.old draft.new exprs.new decls.new }
{
    if draft.exprs.count < parts {
        return Err(ReadFault::TooFew);
    }
    let at = take(&mut draft.pools.decls, decls)?;
    let turned = turn(exprs, draft.exprs.top, parts);
    decls[at as usize] = DeclRecord {
        name,
        value: turned.row,
        next: draft.decls.top,
    };
    draft.exprs = Stack {
        top: turned.rest,
        count: draft.exprs.count - parts,
    };
    draft.decls = Stack {
        top: at,
        count: draft.decls.count + 1,
    };
    draft.stage = Stage::Reading(Awaiting::Command);
    Ok(())
}

fn enough(draft: &Draft, parts: Parts) -> bool
    ensures { elim result [ true ↦ EnoughCounted draft.now parts | false ↦ WantingCounted draft.now parts ] }
{
    parts.exprs <= draft.exprs.count
        && parts.stmts <= draft.stmts.count
        && parts.decls <= draft.decls.count
}

// A statement at a record that was taken: its parts come off the three stacks.
fn place_stmt(
    draft: &mut Draft,
    exprs: &mut [ExprRecord],
    stmts: &mut [StmtRecord],
    decls: &mut [DeclRecord],
    at: u32,
    kind: StatementKind,
    parts: Parts,
)
    requires within { at < length stmts.old }
    requires room { draft.old.stmts.count < nowhere }
    requires enough { EnoughCounted draft.old parts }
    ensures exprs { exprs.new ≡ (turned_exprs parts.exprs exprs.old draft.old.exprs.top nowhere).table }
    ensures stmts { stmts.new ≡ stmt_put kind parts at draft.old exprs.old stmts.old decls.old }
    ensures decls { decls.new ≡ (turned_decls parts.decls decls.old draft.old.decls.top nowhere).table }
    ensures draft { draft.new ≡ draft_with_stmt parts at draft.old exprs.old decls.old }
{
    let values = turn(exprs, draft.exprs.top, parts.exprs);
    let inner = turn(stmts, draft.stmts.top, parts.stmts);
    let names = turn(decls, draft.decls.top, parts.decls);
    stmts[at as usize] = StmtRecord {
        kind,
        exprs: values.row,
        stmts: inner.row,
        decls: names.row,
        next: inner.rest,
    };
    draft.exprs = Stack {
        top: values.rest,
        count: draft.exprs.count - parts.exprs,
    };
    draft.stmts = Stack {
        top: at,
        count: draft.stmts.count - parts.stmts + 1,
    };
    draft.decls = Stack {
        top: names.rest,
        count: draft.decls.count - parts.decls,
    };
    draft.stage = Stage::Reading(Awaiting::Command);
}

// What the topmost statements of a stack are, and how the deepest of them is declared.
#[derive(Clone, Copy)]
pub struct Surveyed {
    pub survey: StmtSurvey,
    pub first: Option<DeclarationKind>,
}

const NOTHING_SEEN: StmtSurvey = StmtSurvey {
    count: 0,
    cases: 0,
    defaults: 0,
    lexicals: 0,
};

// What the topmost statements are.
fn survey_top(stmts: &[StmtRecord], top: u32, count: u32) -> Surveyed
    ensures { (es : ExprTable) (ds : DeclTable) (s : Row) → Surveys es stmts.now ds top count s end nothing_seen → SurveyedAs result (front count s end) }
{
    let mut seen = Surveyed {
        survey: NOTHING_SEEN,
        first: None,
    };
    for (_, record) in along(stmts, top).take(count as usize) {
        let tests = u32::from(record.exprs != NOWHERE);
        seen = Surveyed {
            survey: surveyed(record.kind, tests, seen.survey),
            first: kind_declared(record.kind),
        };
    }
    seen
}

// What the topmost declarators are.
fn decl_survey_top(decls: &[DeclRecord], top: u32, count: u32) -> DeclSurvey
    ensures { (es : ExprTable) (ss : StmtTable) (s : Row) → DeclSurveys es ss decls.now top count s end no_decls_seen → result ≡ decl_survey (front count s end) }
{
    let mut seen = DeclSurvey { count: 0, bare: 0 };
    for (_, record) in along(decls, top).take(count as usize) {
        seen.count += 1;
        seen.bare += u32::from(record.value == NOWHERE);
    }
    seen
}

// Whether the parts of a statement may stand where it puts them.
fn fitting(
    draft: &Draft,
    stmts: &[StmtRecord],
    decls: &[DeclRecord],
    kind: StatementKind,
    parts: Parts,
) -> bool
    ensures { FitsAs result kind parts draft.now stmts.now decls.now }
{
    let inner = survey_top(stmts, draft.stmts.top, parts.stmts);
    let names = decl_survey_top(decls, draft.decls.top, parts.decls);
    fits_stmt(kind, parts.exprs, inner.survey, names, inner.first)
}

// A statement or a case with its parts, from the tops of the stacks.
pub fn put_stmt(
    draft: &mut Draft,
    exprs: &mut [ExprRecord],
    stmts: &mut [StmtRecord],
    decls: &mut [DeclRecord],
    kind: StatementKind,
    parts: Parts,
) -> Result<(), ReadFault>
    requires { draft.old.stmts.count < nowhere }
    ensures { PutStmt result kind parts draft.old exprs.old stmts.old decls.old draft.new exprs.new stmts.new decls.new }
{
    if !enough(draft, parts) {
        return Err(ReadFault::TooFew);
    }
    if !fitting(draft, stmts, decls, kind, parts) {
        return Err(ReadFault::Misplaced);
    }
    let at = take(&mut draft.pools.stmts, stmts)?;
    place_stmt(draft, exprs, stmts, decls, at, kind, parts);
    Ok(())
}

// Whether the topmost statements hold a case.
fn has_case(stmts: &[StmtRecord], top: u32, count: u32) -> bool
    ensures { (es : ExprTable) (ds : DeclTable) (s : Row) → Surveys es stmts.now ds top count s end nothing_seen → HasCase result (survey (front count s end)).cases }
{
    survey_top(stmts, top, count).survey.cases != 0
}

fn alone(draft: &Draft, count: u32) -> bool
    ensures { elim result [ true ↦ AloneCounted count draft.now | false ↦ (AloneCounted count draft.now → ⊥) ] }
{
    draft.exprs.count == 0 && draft.stmts.count == count && draft.decls.count == 0
}

// The body, from the top of the stack of statements; nothing may be left.
pub fn put_body(draft: &mut Draft, stmts: &mut [StmtRecord], count: u32) -> Result<(), ReadFault>
    ensures { PutBody result count draft.old stmts.old draft.new stmts.new }
{
    if draft.stmts.count < count {
        return Err(ReadFault::TooFew);
    }
    if has_case(stmts, draft.stmts.top, count) {
        return Err(ReadFault::Misplaced);
    }
    if !alone(draft, count) {
        return Err(ReadFault::Leftover);
    }
    let body = turn(stmts, draft.stmts.top, count);
    draft.stmts = Stack {
        top: body.rest,
        count: 0,
    };
    draft.stage = Stage::Complete(body.row);
    Ok(())
}
