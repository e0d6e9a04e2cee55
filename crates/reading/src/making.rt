// What a whole command makes: a record of one table and how many parts it takes off each stack, or the body.
ghost use Rattle.std.specs.Prelude.{◌≡◌};
ghost use Rattle.reading.specs.Making.{made_by, parts_of};

use script::{Command, ExpressionKind, StatementKind};
use shapes::{head_expressions, init_statements};

// The numbers of parts that a statement takes off the three stacks.
#[derive(Clone, Copy)]
pub struct Parts {
    pub exprs: u32,
    pub stmts: u32,
    pub decls: u32,
}

#[derive(Clone, Copy)]
pub enum Making {
    Expr { kind: ExpressionKind, parts: u32 },
    Decl { name: u8, parts: u32 },
    Stmt { kind: StatementKind, parts: Parts },
    Body { count: u32 },
}

fn expr(kind: ExpressionKind, parts: u32) -> Making
    ensures { result ≡ Making.Expr kind parts }
{
    Making::Expr { kind, parts }
}

fn stmt(kind: StatementKind, exprs: u32, stmts: u32, decls: u32) -> Making
    ensures { result ≡ Making.Stmt kind (parts_of exprs stmts decls) }
{
    Making::Stmt {
        kind,
        parts: Parts {
            exprs,
            stmts,
            decls,
        },
    }
}

// What a command makes of the items on the stacks.
pub fn made_by(command: Command) -> Making
    ensures { result ≡ made_by command }
{
    match command {
        Command::Number(bits) => expr(ExpressionKind::Number(bits), 0),
        Command::Word(word) => expr(ExpressionKind::Word(word), 0),
        Command::Name(name) => expr(ExpressionKind::Name(name), 0),
        Command::Assignment(name) => expr(ExpressionKind::Assignment(name), 1),
        Command::Call { number, count } => expr(ExpressionKind::Call(number), u32::from(count)),
        Command::Sequence { count } => expr(ExpressionKind::Sequence, u32::from(count)),
        Command::Conditional => expr(ExpressionKind::Conditional, 3),
        Command::Logical(operator) => expr(ExpressionKind::Logical(operator), 2),
        Command::Not => expr(ExpressionKind::Not, 1),
        Command::Void => expr(ExpressionKind::Void, 1),
        Command::StrictEquality => expr(ExpressionKind::StrictEquality, 2),
        Command::Declarator { name, valued } => Making::Decl {
            name,
            parts: u32::from(valued),
        },
        Command::Empty => stmt(StatementKind::Empty, 0, 0, 0),
        Command::Expression => stmt(StatementKind::Expression, 1, 0, 0),
        Command::Declaration { kind, count } => stmt(
            StatementKind::Declaration(kind),
            0,
            0,
            u32::from(count),
        ),
        Command::Return { valued } => stmt(StatementKind::Return, u32::from(valued), 0, 0),
        Command::Throw => stmt(StatementKind::Throw, 1, 0, 0),
        Command::If { alternate } => stmt(StatementKind::If, 1, 1 + u32::from(alternate), 0),
        Command::Block { count } => stmt(StatementKind::Block, 0, u32::from(count), 0),
        Command::While => stmt(StatementKind::While, 1, 1, 0),
        Command::DoWhile => stmt(StatementKind::DoWhile, 1, 1, 0),
        Command::For(head) => stmt(
            StatementKind::For(head),
            head_expressions(head),
            1 + init_statements(head.init),
            0,
        ),
        Command::Break => stmt(StatementKind::Break, 0, 0, 0),
        Command::Continue => stmt(StatementKind::Continue, 0, 0, 0),
        Command::Case { tested, count } => stmt(
            StatementKind::Case,
            u32::from(tested),
            u32::from(count),
            0,
        ),
        Command::Switch { count } => stmt(StatementKind::Switch, 1, u32::from(count), 0),
        Command::Body { count } => Making::Body {
            count: u32::from(count),
        },
    }
}
