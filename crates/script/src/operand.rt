// Bytes of one command or operand: which byte tells which, both ways. Each enum has impls of its own, as the language wants it.
ghost use Rattle.std.specs.Prelude.{◌≡◌, ◌<◌};
ghost use Rattle.script.specs.Format.{code_of, head_of, init_of, kind_of, operator_of, word_of};
ghost use Rattle.script.specs.Written.{head_byte, init_byte, kind_byte, operator_byte, word_byte};
ghost use Rattle.script.specs.Operand.{listed_or_not};

use crate::{Code, DeclarationKind, ForHead, ForInit, LogicalOperator, Word};

// A byte that is not listed where it stands.
#[derive(Clone, Copy, Debug, PartialEq, Eq)]
pub struct NotListed(pub u8);

impl TryFrom<u8> for Code {
    type Error = NotListed;

    ghost try_from_gives = { λ byte answer. answer ≡ listed_or_not byte (code_of byte) };

    fn try_from(byte: u8) -> Result<Code, NotListed> {
        match byte {
            0x01 => Ok(Code::Number),
            0x02 => Ok(Code::Word),
            0x03 => Ok(Code::Name),
            0x04 => Ok(Code::Assignment),
            0x05 => Ok(Code::Call),
            0x06 => Ok(Code::Sequence),
            0x07 => Ok(Code::Conditional),
            0x08 => Ok(Code::Logical),
            0x09 => Ok(Code::Not),
            0x0a => Ok(Code::Void),
            0x0b => Ok(Code::StrictEquality),
            0x10 => Ok(Code::Declarator),
            0x11 => Ok(Code::ValuedDeclarator),
            0x20 => Ok(Code::Empty),
            0x21 => Ok(Code::Expression),
            0x22 => Ok(Code::Declaration),
            0x23 => Ok(Code::BareReturn),
            0x24 => Ok(Code::ValuedReturn),
            0x25 => Ok(Code::Throw),
            0x26 => Ok(Code::If),
            0x27 => Ok(Code::IfElse),
            0x28 => Ok(Code::Block),
            0x29 => Ok(Code::While),
            0x2a => Ok(Code::DoWhile),
            0x2b => Ok(Code::For),
            0x2d => Ok(Code::Break),
            0x2e => Ok(Code::Continue),
            0x2f => Ok(Code::Case),
            0x30 => Ok(Code::Switch),
            0x3f => Ok(Code::Body),
            _ => Err(NotListed(byte)),
        }
    }
}

impl TryFrom<u8> for Word {
    type Error = NotListed;

    ghost try_from_gives = { λ byte answer. answer ≡ listed_or_not byte (word_of byte) };

    fn try_from(byte: u8) -> Result<Word, NotListed> {
        match byte {
            0 => Ok(Word::False),
            1 => Ok(Word::True),
            2 => Ok(Word::Null),
            _ => Err(NotListed(byte)),
        }
    }
}

impl From<Word> for u8 {
    ghost from_gives = { λ word byte. byte ≡ word_byte word };

    fn from(word: Word) -> u8 {
        match word {
            Word::False => 0,
            Word::True => 1,
            Word::Null => 2,
        }
    }
}

impl TryFrom<u8> for LogicalOperator {
    type Error = NotListed;

    ghost try_from_gives = { λ byte answer. answer ≡ listed_or_not byte (operator_of byte) };

    fn try_from(byte: u8) -> Result<LogicalOperator, NotListed> {
        match byte {
            0 => Ok(LogicalOperator::And),
            1 => Ok(LogicalOperator::Or),
            2 => Ok(LogicalOperator::Nullish),
            _ => Err(NotListed(byte)),
        }
    }
}

impl From<LogicalOperator> for u8 {
    ghost from_gives = { λ operator byte. byte ≡ operator_byte operator };

    fn from(operator: LogicalOperator) -> u8 {
        match operator {
            LogicalOperator::And => 0,
            LogicalOperator::Or => 1,
            LogicalOperator::Nullish => 2,
        }
    }
}

impl TryFrom<u8> for DeclarationKind {
    type Error = NotListed;

    ghost try_from_gives = { λ byte answer. answer ≡ listed_or_not byte (kind_of byte) };

    fn try_from(byte: u8) -> Result<DeclarationKind, NotListed> {
        match byte {
            0 => Ok(DeclarationKind::Var),
            1 => Ok(DeclarationKind::Let),
            2 => Ok(DeclarationKind::Const),
            _ => Err(NotListed(byte)),
        }
    }
}

impl From<DeclarationKind> for u8 {
    ghost from_gives = { λ kind byte. byte ≡ kind_byte kind };

    fn from(kind: DeclarationKind) -> u8 {
        match kind {
            DeclarationKind::Var => 0,
            DeclarationKind::Let => 1,
            DeclarationKind::Const => 2,
        }
    }
}

// The two low bits of a `for`; both together are not listed.
fn init(byte: u8) -> Result<ForInit, NotListed>
    ensures { result ≡ listed_or_not byte (init_of byte) }
{
    match byte % 4 {
        0 => Ok(ForInit::Absent),
        1 => Ok(ForInit::Expression),
        2 => Ok(ForInit::Declaration),
        _ => Err(NotListed(byte)),
    }
}

impl From<ForInit> for u8 {
    ghost from_gives = { λ init byte. byte ≡ init_byte init };

    fn from(init: ForInit) -> u8 {
        match init {
            ForInit::Absent => 0,
            ForInit::Expression => 1,
            ForInit::Declaration => 2,
        }
    }
}

// The parts of a `for`, a bit each.
impl TryFrom<u8> for ForHead {
    type Error = NotListed;

    ghost try_from_gives = { λ byte answer. answer ≡ listed_or_not byte (head_of byte) };

    fn try_from(byte: u8) -> Result<ForHead, NotListed> {
        if byte >= 16 {
            return Err(NotListed(byte));
        }
        Ok(ForHead {
            init: init(byte)?,
            test: (byte / 4) % 2 == 1,
            update: (byte / 8) % 2 == 1,
        })
    }
}

impl From<ForHead> for u8 {
    ghost from_gives = { λ head byte. byte ≡ head_byte head };

    fn from(head: ForHead) -> u8 {
        u8::from(head.init) + (4 * u8::from(head.test) + 8 * u8::from(head.update))
    }
}
