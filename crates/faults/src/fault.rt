// Why a call is turned away: the reader's fault carries the sheet's, and that one the pool's.
ghost use Rattle.std.specs.Prelude.{◌≡◌};
ghost use Rattle.faults.specs.Faults.{sheet_number, read_number};
ghost use Rattle.faults.specs.Words.{sheet_words, read_words};
ghost use Rattle.faults.specs.declared.fault.ReadFault.TheVariants.{BadOperand, Sheet};
ghost use Rattle.faults.specs.declared.fault.SheetFault.TheVariants.{Spares};

use pool::PoolFault;
use script::{NotListed, Table};
use std::fmt;

#[derive(Clone, Copy)]
pub enum SheetFault {
    // A table is over its limit, or there are fewer marks than records.
    Sizes,
    // The tables do not hold this sheet.
    NotHeld,
    // Too few spare records, by the pool's own fault.
    Spares(PoolFault<Table>),
    // The draft has no body.
    NoBody,
    // The output is too short.
    ShortOutput,
}

#[derive(Clone, Copy)]
pub enum ReadFault {
    // The fault of the sheet below.
    Sheet(SheetFault),
    // A body is complete.
    BodyComplete,
    // No such command.
    NoCommand,
    // A value or a count that is not listed.
    BadOperand,
    // Too few items on a stack.
    TooFew,
    // A part stands where it may not.
    Misplaced,
    // The body leaves items on a stack.
    Leftover,
}

impl From<PoolFault<Table>> for SheetFault {
    ghost from_gives = { λ f r. r ≡ Spares f };

    fn from(f: PoolFault<Table>) -> SheetFault {
        SheetFault::Spares(f)
    }
}

impl From<SheetFault> for ReadFault {
    ghost from_gives = { λ f r. r ≡ Sheet f };

    fn from(f: SheetFault) -> ReadFault {
        ReadFault::Sheet(f)
    }
}

// An operand that is not listed.
impl From<NotListed> for ReadFault {
    ghost from_gives = { λ _ r. r ≡ BadOperand };

    fn from(_: NotListed) -> ReadFault {
        ReadFault::BadOperand
    }
}

impl fmt::Display for SheetFault {
    ghost output = { sheet_words };

    fn fmt<W: fmt::Write>(&self, f: &mut fmt::Formatter<W>) -> fmt::Result {
        match self {
            SheetFault::Sizes => f.write_str(
                "a table is over its limit, or there are fewer marks than records",
            ),
            SheetFault::NotHeld => f.write_str("the tables do not hold this sheet"),
            SheetFault::Spares(fault) => fault.fmt(f),
            SheetFault::NoBody => f.write_str("there is no body yet"),
            SheetFault::ShortOutput => f.write_str("the output is too short"),
        }
    }
}

impl fmt::Display for ReadFault {
    ghost output = { read_words };

    fn fmt<W: fmt::Write>(&self, f: &mut fmt::Formatter<W>) -> fmt::Result {
        match self {
            ReadFault::Sheet(fault) => fault.fmt(f),
            ReadFault::BodyComplete => f.write_str("the body is complete already"),
            ReadFault::NoCommand => f.write_str("there is no such command"),
            ReadFault::BadOperand => f.write_str("the command does not allow this value or count"),
            ReadFault::TooFew => f.write_str("the command takes more items than there are"),
            ReadFault::Misplaced => f.write_str("a part stands where it may not"),
            ReadFault::Leftover => f.write_str("the body leaves items over"),
        }
    }
}

impl SheetFault {
    // The refusal's number, which is for people to be told: code goes by the fault.
    pub fn number(self) -> u8
        ensures { result ≡ sheet_number self }
    {
        match self {
            SheetFault::Sizes => 1,
            SheetFault::NotHeld => 2,
            SheetFault::Spares(_) => 9,
            SheetFault::NoBody => 10,
            SheetFault::ShortOutput => 11,
        }
    }
}

impl ReadFault {
    // The refusal's number, which is for people to be told: code goes by the fault.
    pub fn number(self) -> u8
        ensures { result ≡ read_number self }
    {
        match self {
            ReadFault::Sheet(fault) => fault.number(),
            ReadFault::BodyComplete => 3,
            ReadFault::NoCommand => 4,
            ReadFault::BadOperand => 5,
            ReadFault::TooFew => 6,
            ReadFault::Misplaced => 7,
            ReadFault::Leftover => 8,
        }
    }
}
