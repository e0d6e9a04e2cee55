// Rows of one table: a record put in front of another row, a row put behind another, a row turned round.
ghost use Rattle.std.specs.Prelude.{◌≡◌, ℕ, suc, ◌<◌, ◌≤◌, [], ◌∷◌, map, length};
ghost use Rattle.pool.specs.Chain.{Chain, modify, nowhere};
ghost use Rattle.records.specs.Heap.{Label};
ghost use Rattle.records.specs.Rows.{Row, end, node};
ghost use Rattle.moves.specs.Front.{in_front, links_on, turned_onto};
ghost use Rattle.moves.specs.Last.{IsLast};
ghost use Rattle.moves.specs.Moved.{TurnsTable};

use crate::cells::{record_at, set};
use crate::table::Record;
use pool::NOWHERE;
use records::along;

// Takes the first record off its row and puts it in front of another; the answer is what was behind it.
pub fn relink<R: Record>(table: &mut [R], at: u32, row: u32) -> u32
    ensures place { table.new ≡ modify (λ x. R.relinked x row) at table.old }
    ensures turns { (l : Label) (x y z w v : Row) → TurnsTable R.table_of table.old table.new
        ((R.table_of.place at, node l x y z w) ∷ (R.table_of.place row, v) ∷ [])
        ((R.table_of.place result, w) ∷ (R.table_of.place at, node l x y z v) ∷ []) }
{
    let mut record = record_at(table, at);
    let behind = record.next();
    record.set_next(row);
    set(table, at, record);
    behind
}

// Puts a record with nothing behind it in front of a row.
pub fn link<R: Record>(table: &mut [R], at: u32, row: u32)
    ensures place { table.new ≡ modify (λ x. R.relinked x row) at table.old }
    ensures turns { (l : Label) (x y z w : Row) → TurnsTable R.table_of table.old table.new
        ((R.table_of.place at, node l x y z end) ∷ (R.table_of.place row, w) ∷ []) ((R.table_of.place at, node l x y z w) ∷ []) }
{
    relink(table, at, row);
}

// Cuts the first record of a row off; the answer is what was behind it.
pub fn detach<R: Record>(table: &mut [R], at: u32) -> u32
    ensures { (l : Label) (x y z w : Row) → TurnsTable R.table_of table.old table.new
        ((R.table_of.place at, node l x y z w) ∷ []) ((R.table_of.place at, node l x y z end) ∷ (R.table_of.place result, w) ∷ []) }
{
    relink(table, at, NOWHERE)
}

// Puts the records of a row one after the other in front of another row.
pub fn push_all<R: Record>(table: &mut [R], row: u32, onto: u32) -> u32
    ensures { (v w : Row) → TurnsTable R.table_of table.old table.new
        ((R.table_of.place row, v) ∷ (R.table_of.place onto, w) ∷ []) ((R.table_of.place result, turned_onto v w) ∷ []) }
{
    let mut from = row;
    let mut pushed = onto;
    for _i in 0..table.len() {
        if from == NOWHERE {
            return pushed;
        }
        let behind = relink(table, from, pushed);
        pushed = from;
        from = behind;
    }
    pushed
}

// The last place of a row that is not empty.
pub fn last_of_row<R: Record>(table: &[R], row: u32) -> u32
    ensures chain { (n : ℕ) → n < length table.now → length table.now ≤ nowhere →
        Chain (map R.link table.now) row (suc n) → result ≡ links_on (map R.link table.now) row n }
    ensures row { IsLast R.table_of table.now row result }
{
    let mut last = row;
    for (at, _) in along(table, row) {
        last = at;
    }
    last
}

// Puts a row behind another that is not empty.
pub fn append<R: Record>(table: &mut [R], row: u32, more: u32)
    ensures chain { (n : ℕ) → n < length table.old → length table.old ≤ nowhere →
        Chain (map R.link table.old) row (suc n) →
        table.new ≡ modify (λ x. R.relinked x more) (links_on (map R.link table.old) row n) table.old }
    ensures row { (l : Label) (x y z v w : Row) → TurnsTable R.table_of table.old table.new
        ((R.table_of.place row, node l x y z v) ∷ (R.table_of.place more, w) ∷ []) ((R.table_of.place row, node l x y z (in_front v w)) ∷ []) }
{
    let last = last_of_row(table, row);
    link(table, last, more);
}

// Puts a row behind another, and tells where they begin.
pub fn join_rows<R: Record>(table: &mut [R], row: u32, more: u32) -> u32
    ensures { (v w : Row) → TurnsTable R.table_of table.old table.new
        ((R.table_of.place row, v) ∷ (R.table_of.place more, w) ∷ []) ((R.table_of.place result, in_front v w) ∷ []) }
{
    if row == NOWHERE {
        return more;
    }
    append(table, row, more);
    row
}
