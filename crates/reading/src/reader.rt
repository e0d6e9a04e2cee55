// What one byte is, by what the draft awaits and by its own value.
ghost use Rattle.std.specs.Prelude.{◌≡◌, Ok};
ghost use Rattle.script.specs.Format.{begun, lexed, count_ends, flag_of};
ghost use Rattle.script.specs.Operand.{listed_or_not};
ghost use Rattle.reading.specs.Steps.{told};

use faults::ReadFault;
use script::{
    Awaiting, Code, Command, Counted, DeclarationKind, ForHead, LogicalOperator, NotListed, Word,
};

// A byte that is not refused: the command awaits more, or it is whole.
// Neither case is a failure, and bytes go on after both, so this is an enum of its own and no `Result` or `ControlFlow`.
#[derive(Clone, Copy)]
pub enum Step {
    Await(Awaiting),
    Perform(Command),
}

// The byte of a command: some are whole at once, others await operands.
fn begin(code: Code) -> Step
    ensures { Ok result ≡ told (begun code) }
{
    match code {
        Code::Number => Step::Await(Awaiting::NumberFirst),
        Code::Word => Step::Await(Awaiting::Word),
        Code::Name => Step::Await(Awaiting::Name),
        Code::Assignment => Step::Await(Awaiting::Assignment),
        Code::Call => Step::Await(Awaiting::CallNumber),
        Code::Sequence => Step::Await(Awaiting::Count(Counted::Sequence)),
        Code::Conditional => Step::Perform(Command::Conditional),
        Code::Logical => Step::Await(Awaiting::LogicalOperator),
        Code::Not => Step::Perform(Command::Not),
        Code::Void => Step::Perform(Command::Void),
        Code::StrictEquality => Step::Perform(Command::StrictEquality),
        Code::Declarator => Step::Await(Awaiting::Declarator { valued: false }),
        Code::ValuedDeclarator => Step::Await(Awaiting::Declarator { valued: true }),
        Code::Empty => Step::Perform(Command::Empty),
        Code::Expression => Step::Perform(Command::Expression),
        Code::Declaration => Step::Await(Awaiting::DeclarationKind),
        Code::BareReturn => Step::Perform(Command::Return { valued: false }),
        Code::ValuedReturn => Step::Perform(Command::Return { valued: true }),
        Code::Throw => Step::Perform(Command::Throw),
        Code::If => Step::Perform(Command::If { alternate: false }),
        Code::IfElse => Step::Perform(Command::If { alternate: true }),
        Code::Block => Step::Await(Awaiting::Count(Counted::Block)),
        Code::While => Step::Perform(Command::While),
        Code::DoWhile => Step::Perform(Command::DoWhile),
        Code::For => Step::Await(Awaiting::ForHead),
        Code::Break => Step::Perform(Command::Break),
        Code::Continue => Step::Perform(Command::Continue),
        Code::Case => Step::Await(Awaiting::CaseTest),
        Code::Switch => Step::Await(Awaiting::Count(Counted::Switch)),
        Code::Body => Step::Await(Awaiting::BodyZero),
    }
}

// A byte that answers yes or no.
fn flag(byte: u8) -> Result<bool, NotListed>
    ensures { result ≡ listed_or_not byte (flag_of byte) }
{
    match byte {
        0 => Ok(false),
        1 => Ok(true),
        _ => Err(NotListed(byte)),
    }
}

// A command whose count is told, if the count is listed.
fn with_count(counted: Counted, count: u16) -> Result<Step, ReadFault>
    ensures { result ≡ told (count_ends counted count) }
{
    Ok(Step::Perform(match counted {
        Counted::Sequence if count < 2 => return Err(ReadFault::BadOperand),
        Counted::Sequence => Command::Sequence { count },
        Counted::Declaration(_) if count < 1 => return Err(ReadFault::BadOperand),
        Counted::Declaration(kind) => Command::Declaration { kind, count },
        Counted::Block => Command::Block { count },
        Counted::Case { tested } => Command::Case { tested, count },
        Counted::Switch => Command::Switch { count },
        Counted::Body => Command::Body { count },
    }))
}

// A byte by what is awaited and by its own value.
pub fn read_byte(awaiting: Awaiting, byte: u8) -> Result<Step, ReadFault>
    ensures { result ≡ told (lexed awaiting byte) }
{
    Ok(match (awaiting, byte) {
        (Awaiting::Command, byte) => begin(Code::try_from(byte).map_err(|_| ReadFault::NoCommand)?),
        (Awaiting::NumberFirst, a) => Step::Await(Awaiting::NumberSecond(a)),
        (Awaiting::NumberSecond(a), b) => Step::Await(Awaiting::NumberThird(a, b)),
        (Awaiting::NumberThird(a, b), c) => Step::Await(Awaiting::NumberFourth(a, b, c)),
        (Awaiting::NumberFourth(a, b, c), d) => {
            let bits = u32::from_le_bytes([a, b, c, d]);
            Step::Perform(Command::Number(bits))
        }
        (Awaiting::Word, byte) => Step::Perform(Command::Word(Word::try_from(byte)?)),
        (Awaiting::Name, name) => Step::Perform(Command::Name(name)),
        (Awaiting::Assignment, name) => Step::Perform(Command::Assignment(name)),
        (Awaiting::CallNumber, number) => Step::Await(Awaiting::CallCount { number }),
        (Awaiting::CallCount { number }, count) => Step::Perform(Command::Call { number, count }),
        (Awaiting::LogicalOperator, byte) => {
            let operator = LogicalOperator::try_from(byte)?;
            Step::Perform(Command::Logical(operator))
        }
        (Awaiting::Declarator { valued }, name) => Step::Perform(Command::Declarator {
            name,
            valued,
        }),
        (Awaiting::DeclarationKind, byte) => {
            let kind = DeclarationKind::try_from(byte)?;
            Step::Await(Awaiting::Count(Counted::Declaration(kind)))
        }
        (Awaiting::ForHead, byte) => Step::Perform(Command::For(ForHead::try_from(byte)?)),
        (Awaiting::CaseTest, byte) => {
            let tested = flag(byte)?;
            Step::Await(Awaiting::Count(Counted::Case { tested }))
        }
        (Awaiting::BodyZero, 0) => Step::Await(Awaiting::Count(Counted::Body)),
        (Awaiting::BodyZero, _) => return Err(ReadFault::BadOperand),
        (Awaiting::Count(counted), low) => Step::Await(Awaiting::CountHigh { counted, low }),
        (Awaiting::CountHigh { counted, low }, high) => {
            let count = u16::from_le_bytes([low, high]);
            with_count(counted, count)?
        }
    })
}
