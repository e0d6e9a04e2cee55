// A pool of records in a table that a caller lends: the spare records are chained by their links.
// The pool knows of a record only that it has a link and which table it belongs to.
#![tactic(auto)]

ghost use Rattle.std.specs.Prelude.{◌≡◌, ℕ, ◌+◌, ◌<◌, ◌≤◌, map, length, Ok, Err};
ghost use Rattle.pool.specs.Chain.{Chain, places, modify, nowhere};
ghost use Rattle.pool.specs.Answers.{taken, pool_after, given};
ghost use Rattle.pool.specs.Words.{fault_words};
ghost use Rattle.std.specs.List.{range_with_len};

use std::fmt;

// The link that leads nowhere.
pub const NOWHERE: u32 = u32::MAX;

// A record that has a link.
pub trait Linked {
    // How the table of such records is named; a fault of its pool tells the name.
    type Table: Copy;

    ghost table: { Self.Table };

    ghost link: { Self → ℕ };

    ghost relinked: { Self → ℕ → Self };

    fn table() -> Self::Table
        ensures { result ≡ table };

    fn next(&self) -> u32
        ensures { result ≡ link self.now };

    fn set_next(&mut self, to: u32)
        ensures { self.new ≡ relinked self.old to };

    ghost linked: { (x : Self) (n : ℕ) → link (relinked x n) ≡ n };
}

// Why a pool turns a call away. Each case names the table.
#[derive(Clone, Copy)]
pub enum PoolFault<T> {
    // No record is spare.
    Empty(T),
    // A link or a place lies outside the table.
    Outside(T),
    // The table has more records than links can tell, or the count of spares would pass that.
    TooLong(T),
}

impl<T: fmt::Display> fmt::Display for PoolFault<T> {
    ghost output = { fault_words T.output };

    fn fmt<W: fmt::Write>(&self, f: &mut fmt::Formatter<W>) -> fmt::Result {
        match self {
            PoolFault::Empty(table) => write!(f, "no {table} record is spare"),
            PoolFault::Outside(_) => f.write_str("a spare record lies outside its table"),
            PoolFault::TooLong(_) => f.write_str("a table has too many records"),
        }
    }
}

// The first spare record and how many there are.
#[derive(Clone, Copy)]
pub struct Pool {
    pub head: u32,
    pub count: u32,
}

impl Pool {
    // Makes every record of the table spare, the first one first.
    pub fn start<R: Linked>(table: &mut [R]) -> Result<Pool, PoolFault<R::Table>>
        ensures { elim result [
          | Ok p ↦ (length table.new ≤ nowhere) × (p.count ≡ length table.new)
              × Chain (map R.link table.new) p.head p.count
              × (places (map R.link table.new) p.head p.count ≡ range_with_len 0 (length table.new))
          | Err f ↦ (f ≡ PoolFault.TooLong R.table) × (nowhere < length table.old) × (table.new ≡ table.old)
        ] }
    {
        if table.len() > NOWHERE as usize {
            return Err(PoolFault::TooLong(R::table()));
        }
        let mut head = NOWHERE;
        for at in (0..table.len() as u32).rev() {
            table[at as usize].set_next(head);
            head = at;
        }
        Ok(Pool {
            head,
            count: table.len() as u32,
        })
    }

    // Takes the first spare record.
    pub fn take<R: Linked>(&mut self, table: &[R]) -> Result<u32, PoolFault<R::Table>>
        ensures answer { result ≡ taken R.table (map R.link table.now) self.old }
        ensures after { self.new ≡ pool_after (map R.link table.now) self.old }
    {
        if self.count == 0 {
            return Err(PoolFault::Empty(R::table()));
        }
        let at = self.head;
        if at as usize >= table.len() {
            return Err(PoolFault::Outside(R::table()));
        }
        self.head = table[at as usize].next();
        self.count -= 1;
        Ok(at)
    }

    // Gives a record back: it is the first spare then.
    pub fn give<R: Linked>(&mut self, table: &mut [R], at: u32) -> Result<(), PoolFault<R::Table>>
        ensures answer { result ≡ given R.table (length table.old) at self.old }
        ensures accepted { elim result [
          | Ok u ↦ (table.new ≡ modify (λ x. R.relinked x self.old.head) at table.old)
              × (self.new ≡ record { head = at; count = self.old.count + 1 })
          | Err f ↦ (table.new ≡ table.old) × (self.new ≡ self.old)
        ] }
    {
        if at as usize >= table.len() {
            return Err(PoolFault::Outside(R::table()));
        }
        if self.count == NOWHERE {
            return Err(PoolFault::TooLong(R::table()));
        }
        table[at as usize].set_next(self.head);
        self.head = at;
        self.count += 1;
        Ok(())
    }
}
