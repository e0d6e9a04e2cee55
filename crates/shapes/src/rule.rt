// Which parts a record may have: the rules of feeding, as far as they look at one record and its rows.
ghost use Rattle.std.specs.Prelude.{◌≡◌};
ghost use Rattle.shapes.specs.Shape.{fits_expr, fits_stmt, RoomForOne, surveyed, kind_declared, plain_stmt, branches, head_expressions, init_statements, for_fits, values_fit, switch_fits};

use script::{DeclarationKind, ExpressionKind, ForHead, ForInit, StatementKind};

// How many statements a row has, and how many of them are cases, defaults, and declarations by let or const.
// That none is above the count is no ghost field: `fits_stmt` takes any survey, and would ask more of its callers.
#[derive(Clone, Copy, Default)]
pub struct StmtSurvey {
    pub count: u32,
    pub cases: u32,
    pub defaults: u32,
    pub lexicals: u32,
}

// How many declarators a row has, and how many of them have no value.
#[derive(Clone, Copy, Default)]
pub struct DeclSurvey {
    pub count: u32,
    pub bare: u32,
}

// Whether an expression of this kind may have so many parts.
pub fn fits_expr(kind: ExpressionKind, parts: u32) -> bool
    ensures { result ≡ fits_expr kind parts }
{
    match kind {
        ExpressionKind::Number(_) | ExpressionKind::Word(_) | ExpressionKind::Name(_) => parts == 0,
        ExpressionKind::Assignment(_) | ExpressionKind::Not | ExpressionKind::Void => parts == 1,
        ExpressionKind::Call(_) => parts <= 255,
        ExpressionKind::Sequence => parts >= 2,
        ExpressionKind::Conditional => parts == 3,
        ExpressionKind::Logical(_) | ExpressionKind::StrictEquality => parts == 2,
    }
}

// Whether a statement of this kind may have so many expressions, such statements and such declarators.
// `first` is how its first statement is declared, if that is a declaration.
pub fn fits_stmt(
    kind: StatementKind,
    exprs: u32,
    stmts: StmtSurvey,
    decls: DeclSurvey,
    first: Option<DeclarationKind>,
) -> bool
    ensures { result ≡ fits_stmt kind exprs stmts decls first }
{
    match kind {
        StatementKind::Empty | StatementKind::Break | StatementKind::Continue => exprs == 0
            && plain(stmts, decls),
        StatementKind::Expression | StatementKind::Throw => exprs == 1 && plain(stmts, decls),
        StatementKind::Declaration(kind) => exprs == 0
            && stmts.count == 0
            && decls.count >= 1
            && values_fit(kind, decls.bare),
        StatementKind::Return => exprs <= 1 && plain(stmts, decls),
        StatementKind::If => exprs == 1
            && stmts.count >= 1
            && stmts.count <= 2
            && branches(stmts, decls),
        StatementKind::Block => exprs == 0 && stmts.cases == 0 && decls.count == 0,
        StatementKind::While | StatementKind::DoWhile => exprs == 1
            && stmts.count == 1
            && branches(stmts, decls),
        StatementKind::For(head) => exprs == head_expressions(head)
            && stmts.cases == 0
            && decls.count == 0
            && for_fits(head.init, stmts, first),
        StatementKind::Switch => exprs == 1 && switch_fits(stmts, decls),
        StatementKind::Case => exprs <= 1 && stmts.cases == 0 && decls.count == 0,
    }
}

fn plain(stmts: StmtSurvey, decls: DeclSurvey) -> bool
    ensures { result ≡ plain_stmt stmts decls }
{
    stmts.count == 0 && decls.count == 0
}

fn values_fit(kind: DeclarationKind, bare: u32) -> bool
    ensures { result ≡ values_fit kind bare }
{
    kind != DeclarationKind::Const || bare == 0
}

fn branches(stmts: StmtSurvey, decls: DeclSurvey) -> bool
    ensures { result ≡ branches stmts decls }
{
    stmts.cases == 0 && stmts.lexicals == 0 && decls.count == 0
}

fn switch_fits(stmts: StmtSurvey, decls: DeclSurvey) -> bool
    ensures { result ≡ switch_fits stmts decls }
{
    stmts.count >= 1 && stmts.cases == stmts.count && stmts.defaults <= 1 && decls.count == 0
}

// How many expressions a `for` has.
pub fn head_expressions(head: ForHead) -> u32
    ensures { result ≡ head_expressions head }
{
    let init = match head.init {
        ForInit::Absent | ForInit::Declaration => 0,
        ForInit::Expression => 1,
    };
    init + u32::from(head.test) + u32::from(head.update)
}

// How many statements a `for` has before its body.
pub fn init_statements(init: ForInit) -> u32
    ensures { result ≡ init_statements init }
{
    match init {
        ForInit::Absent | ForInit::Expression => 0,
        ForInit::Declaration => 1,
    }
}

fn for_fits(init: ForInit, stmts: StmtSurvey, first: Option<DeclarationKind>) -> bool
    ensures { result ≡ for_fits init stmts first }
{
    match (init, first) {
        (ForInit::Absent | ForInit::Expression, _) => stmts.count == 1 && stmts.lexicals == 0,
        (ForInit::Declaration, None) => false,
        (ForInit::Declaration, Some(DeclarationKind::Var)) => stmts.count == 2
            && stmts.lexicals == 0,
        (ForInit::Declaration, Some(_)) => stmts.count == 2 && stmts.lexicals == 1,
    }
}

// How a statement of this kind declares its names, if it does.
pub fn kind_declared(kind: StatementKind) -> Option<DeclarationKind>
    ensures { result ≡ kind_declared kind }
{
    match kind {
        StatementKind::Declaration(kind) => Some(kind),
        _ => None,
    }
}

// One statement more, with so many expressions of its own.
pub fn surveyed(kind: StatementKind, exprs: u32, survey: StmtSurvey) -> StmtSurvey
    requires { RoomForOne survey }
    ensures { result ≡ surveyed kind exprs survey }
{
    let case = kind == StatementKind::Case;
    let lexical = matches!(
        kind,
        StatementKind::Declaration(DeclarationKind::Let | DeclarationKind::Const)
    );
    StmtSurvey {
        count: survey.count + 1,
        cases: survey.cases + u32::from(case),
        defaults: survey.defaults + u32::from(case && exprs == 0),
        lexicals: survey.lexicals + u32::from(lexical),
    }
}
