// A walk along a row, for loops that only read it.
ghost use Rattle.std.specs.Prelude.{◌≡◌, length};
ghost use Rattle.std.specs.Iterator.{YieldsFirst, item_count};
ghost use Rattle.records.specs.Walked.{ahead, walked};

use pool::Linked;

// The records of a row that are left, each with its place. It ends at a place outside the table, as NOWHERE is,
// and after as many records as the table has.
#[derive(Drop)]
pub struct Walk<'a, R> {
    pub table: &'a [R],
    pub at: u32,
    pub left: usize,
}

// The records of a row, each with its place.
pub fn along<R: Linked + Copy>(table: &[R], at: u32) -> Walk<R>
    ensures { ahead R.link result ≡ walked R.link table.now at (length table.now) }
{
    Walk {
        table,
        at,
        left: table.len(),
    }
}

impl<'a, R: Linked + Copy> Iterator for Walk<'a, R> {
    type Item = (u32, R);

    ghost next_gives = { YieldsFirst (ahead R.link) };

    ghost remaining = { item_count (ahead R.link) };

    fn next(&mut self) -> Option<(u32, R)> {
        let at = self.at;
        let record = *self.table.get(at as usize)?;
        self.left = self.left.checked_sub(1)?;
        self.at = record.next();
        Some((at, record))
    }
}
