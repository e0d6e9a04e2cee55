// The script of a sheet: kinds of expressions and statements, and the commands that spell them.
// What they mean together stands in specs/: trees, the reading of bytes, their judging and their writing.
#![tactic(auto)]

ghost use Rattle.std.specs.Prelude.{Some};
ghost use Rattle.script.specs.Words.{table_word};

mod laws;
mod operand;

pub use laws::{
    accepted_bytes_spell, taken_bytes_keep_the_rules, written_bytes_are_taken,
    written_bytes_spell_the_body,
};
pub use operand::NotListed;
use std::fmt;

#[derive(Clone, Copy, PartialEq, Eq)]
pub enum Word {
    False,
    True,
    Null,
}

#[derive(Clone, Copy, PartialEq, Eq)]
pub enum LogicalOperator {
    And,
    Or,
    Nullish,
}

#[derive(Clone, Copy, PartialEq, Eq)]
pub enum DeclarationKind {
    Var,
    Let,
    Const,
}

// What stands before the first semicolon of a `for`.
#[derive(Clone, Copy, PartialEq, Eq)]
pub enum ForInit {
    Absent,
    Expression,
    Declaration,
}

// Which parts a `for` has beside its body.
#[derive(Clone, Copy, PartialEq, Eq)]
pub struct ForHead {
    pub init: ForInit,
    pub test: bool,
    pub update: bool,
}

// What an expression is, but for its parts. A number is told by its 32 bits.
#[derive(Clone, Copy, PartialEq, Eq)]
pub enum ExpressionKind {
    Number(u32),
    Word(Word),
    Name(u8),
    Assignment(u8),
    Call(u8),
    Sequence,
    Conditional,
    Logical(LogicalOperator),
    Not,
    Void,
    StrictEquality,
}

// What a statement or a case is, but for its parts.
#[derive(Clone, Copy, PartialEq, Eq)]
pub enum StatementKind {
    Empty,
    Expression,
    Declaration(DeclarationKind),
    Return,
    Throw,
    If,
    Block,
    While,
    DoWhile,
    For(ForHead),
    Switch,
    Case,
    Break,
    Continue,
}

// The first byte of a command, by name.
#[derive(Clone, Copy)]
pub enum Code {
    Number,
    Word,
    Name,
    Assignment,
    Call,
    Sequence,
    Conditional,
    Logical,
    Not,
    Void,
    StrictEquality,
    Declarator,
    ValuedDeclarator,
    Empty,
    Expression,
    Declaration,
    BareReturn,
    ValuedReturn,
    Throw,
    If,
    IfElse,
    Block,
    While,
    DoWhile,
    For,
    Break,
    Continue,
    Case,
    Switch,
    Body,
}

// A command with its operands.
#[derive(Clone, Copy)]
pub enum Command {
    Number(u32),
    Word(Word),
    Name(u8),
    Assignment(u8),
    Call { number: u8, count: u8 },
    Sequence { count: u16 },
    Conditional,
    Logical(LogicalOperator),
    Not,
    Void,
    StrictEquality,
    Declarator { name: u8, valued: bool },
    Empty,
    Expression,
    Declaration { kind: DeclarationKind, count: u16 },
    Return { valued: bool },
    Throw,
    If { alternate: bool },
    Block { count: u16 },
    While,
    DoWhile,
    For(ForHead),
    Break,
    Continue,
    Case { tested: bool, count: u16 },
    Switch { count: u16 },
    Body { count: u16 },
}

// A command whose last operand is a count of two bytes.
#[derive(Clone, Copy)]
pub enum Counted {
    Sequence,
    Declaration(DeclarationKind),
    Block,
    Case { tested: bool },
    Switch,
    Body,
}

// What the next byte is, by the command that is begun.
#[derive(Clone, Copy)]
pub enum Awaiting {
    Command,
    NumberFirst,
    NumberSecond(u8),
    NumberThird(u8, u8),
    NumberFourth(u8, u8, u8),
    Word,
    Name,
    Assignment,
    CallNumber,
    CallCount { number: u8 },
    LogicalOperator,
    Declarator { valued: bool },
    DeclarationKind,
    ForHead,
    CaseTest,
    BodyZero,
    Count(Counted),
    CountHigh { counted: Counted, low: u8 },
}

// The three tables.
#[derive(Clone, Copy, Debug, PartialEq, Eq)]
pub enum Table {
    Expressions,
    Statements,
    Declarators,
}

impl fmt::Display for Table {
    ghost output = { λ t. Some (table_word t) };

    fn fmt<W: fmt::Write>(&self, f: &mut fmt::Formatter<W>) -> fmt::Result {
        f.write_str(match self {
            Table::Expressions => "expression",
            Table::Statements => "statement",
            Table::Declarators => "declarator",
        })
    }
}
