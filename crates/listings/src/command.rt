// How each command is told. The marks in its text are its parts, in the order of the source, which is that of the written bytes:
//
//     #  its name or number
//     $  a part as it is
//     ~  an expression without the parentheses around the whole of it
//     _  a statement under its head
//     ^  a statement under `else`
//     <  what stands between the part before it and a word behind that
//     *  all other parts with commas between them
//     %  all other parts on lines of their own
//     +  all other parts on indented lines
//     @  all other parts on indented lines in braces
use script::{Code, Command, DeclarationKind, ForHead, ForInit, LogicalOperator, Word};

// The head of a `for` whose byte is not listed.
const FULL_HEAD: ForHead = ForHead {
    init: ForInit::Declaration,
    test: true,
    update: true,
};

// A byte with those behind it as a command, whatever they are. An operand that is missing is 0, and one that is not listed
// counts as the last that is; a byte that begins no command is a list of nothing.
pub fn command(first: u8, operands: &[u8]) -> Command {
    match Code::try_from(first) {
        Ok(code) => command_of(code, operands),
        Err(_) => Command::Body { count: 0 },
    }
}

fn command_of(code: Code, operands: &[u8]) -> Command {
    let first = byte(operands, 0);
    match code {
        Code::Number => Command::Number(u32::from_le_bytes([
            first,
            byte(operands, 1),
            byte(operands, 2),
            byte(operands, 3),
        ])),
        Code::Word => Command::Word(Word::try_from(first).unwrap_or(Word::Null)),
        Code::Name => Command::Name(first),
        Code::Assignment => Command::Assignment(first),
        Code::Call => Command::Call {
            number: first,
            count: byte(operands, 1),
        },
        Code::Sequence => Command::Sequence {
            count: count(operands, 0),
        },
        Code::Conditional => Command::Conditional,
        Code::Logical => Command::Logical(LogicalOperator::try_from(first).unwrap_or(
            LogicalOperator::Nullish,
        )),
        Code::Not => Command::Not,
        Code::Void => Command::Void,
        Code::StrictEquality => Command::StrictEquality,
        Code::Declarator => Command::Declarator {
            name: first,
            valued: false,
        },
        Code::ValuedDeclarator => Command::Declarator {
            name: first,
            valued: true,
        },
        Code::Empty => Command::Empty,
        Code::Expression => Command::Expression,
        Code::Declaration => Command::Declaration {
            kind: DeclarationKind::try_from(first).unwrap_or(DeclarationKind::Const),
            count: count(operands, 1),
        },
        Code::BareReturn => Command::Return { valued: false },
        Code::ValuedReturn => Command::Return { valued: true },
        Code::Throw => Command::Throw,
        Code::If => Command::If { alternate: false },
        Code::IfElse => Command::If { alternate: true },
        Code::Block => Command::Block {
            count: count(operands, 0),
        },
        Code::While => Command::While,
        Code::DoWhile => Command::DoWhile,
        Code::For => Command::For(ForHead::try_from(first).unwrap_or(FULL_HEAD)),
        Code::Break => Command::Break,
        Code::Continue => Command::Continue,
        Code::Case => Command::Case {
            tested: first != 0,
            count: count(operands, 1),
        },
        Code::Switch => Command::Switch {
            count: count(operands, 0),
        },
        Code::Body => Command::Body {
            count: count(operands, 1),
        },
    }
}

// How many bytes the operands of a command have.
pub fn width(first: u8) -> usize {
    match Code::try_from(first) {
        Ok(Code::Number) => 4,
        Ok(Code::Declaration | Code::Case | Code::Body) => 3,
        Ok(Code::Call | Code::Sequence | Code::Block | Code::Switch) => 2,
        Ok(
            Code::Word
            | Code::Name
            | Code::Assignment
            | Code::Logical
            | Code::Declarator
            | Code::ValuedDeclarator
            | Code::For,
        ) => 1,
        _ => 0,
    }
}

// The byte at a place, or 0 behind the end.
fn byte(bytes: &[u8], at: usize) -> u8 {
    bytes.get(at).copied().unwrap_or(0)
}

// The count of two bytes at a place, the low one first.
fn count(bytes: &[u8], at: usize) -> u16 {
    u16::from_le_bytes([byte(bytes, at), byte(bytes, at.saturating_add(1))])
}

pub fn text(command: Command) -> &'static str {
    match command {
        Command::Number(_) => "#",
        Command::Word(Word::False) => "false",
        Command::Word(Word::True) => "true",
        Command::Word(Word::Null) => "null",
        Command::Name(_) => "n#",
        Command::Assignment(_) => "(n# = $)",
        Command::Call { .. } => "c#(*)",
        Command::Sequence { .. } => "(*)",
        Command::Conditional => "($ ? $ : $)",
        Command::Logical(LogicalOperator::And) => "($ && $)",
        Command::Logical(LogicalOperator::Or) => "($ || $)",
        Command::Logical(LogicalOperator::Nullish) => "($ ?? $)",
        Command::Not => "!$",
        Command::Void => "void $",
        Command::StrictEquality => "($ === $)",
        Command::Declarator { valued: false, .. } => "n#",
        Command::Declarator { valued: true, .. } => "n# = $",
        Command::Empty => ";",
        Command::Expression => "~;",
        Command::Declaration {
            kind: DeclarationKind::Var,
            ..
        } => "var *;",
        Command::Declaration {
            kind: DeclarationKind::Let,
            ..
        } => "let *;",
        Command::Declaration {
            kind: DeclarationKind::Const,
            ..
        } => "const *;",
        Command::Return { valued: false } => "return;",
        Command::Return { valued: true } => "return ~;",
        Command::Throw => "throw ~;",
        Command::If { alternate: false } => "if (~)_",
        Command::If { alternate: true } => "if (~)_<else^",
        Command::Block { .. } => "@",
        Command::While => "while (~)_",
        Command::DoWhile => "do_<while (~);",
        Command::For(head) => for_text(head),
        Command::Break => "break;",
        Command::Continue => "continue;",
        Command::Case { tested: false, .. } => "default:+",
        Command::Case { tested: true, .. } => "case ~:+",
        Command::Switch { .. } => "switch (~) @",
        Command::Body { .. } => "%",
    }
}

// A declaration ends with a semicolon of its own.
fn for_text(head: ForHead) -> &'static str {
    match (head.init, head.test, head.update) {
        (ForInit::Absent, false, false) => "for (; ; )_",
        (ForInit::Absent, false, true) => "for (; ; ~)_",
        (ForInit::Absent, true, false) => "for (; ~; )_",
        (ForInit::Absent, true, true) => "for (; ~; ~)_",
        (ForInit::Expression, false, false) => "for (~; ; )_",
        (ForInit::Expression, false, true) => "for (~; ; ~)_",
        (ForInit::Expression, true, false) => "for (~; ~; )_",
        (ForInit::Expression, true, true) => "for (~; ~; ~)_",
        (ForInit::Declaration, false, false) => "for ($ ; )_",
        (ForInit::Declaration, false, true) => "for ($ ; ~)_",
        (ForInit::Declaration, true, false) => "for ($ ~; )_",
        (ForInit::Declaration, true, true) => "for ($ ~; ~)_",
    }
}

// The name or number that a command tells. The bits of a number tell it with its sign.
pub fn number(command: Command) -> Option<i32> {
    match command {
        Command::Number(bits) => Some(bits.cast_signed()),
        Command::Name(name) | Command::Assignment(name) | Command::Declarator { name, .. } => Some(
            i32::from(name),
        ),
        Command::Call { number, .. } => Some(i32::from(number)),
        _ => None,
    }
}

// How many parts a command takes: those with marks of their own, and as many more as it counts.
pub fn parts(command: Command) -> usize {
    text(command)
        .chars()
        .filter(|mark| is_part(*mark))
        .count()
        .saturating_add(usize::from(counted(command)))
}

// Whether a mark is one part.
pub fn is_part(mark: char) -> bool {
    matches!(mark, '$' | '~' | '_' | '^')
}

fn counted(command: Command) -> u16 {
    match command {
        Command::Call { count, .. } => u16::from(count),
        Command::Sequence { count }
        | Command::Declaration { count, .. }
        | Command::Block { count }
        | Command::Case { count, .. }
        | Command::Switch { count }
        | Command::Body { count } => count,
        _ => 0,
    }
}
