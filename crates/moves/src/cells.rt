// Single records: read, written, taken and given back.
ghost use Rattle.std.specs.Prelude.{◌≡◌, map, set as written, slice_index_or};
ghost use Rattle.moves.specs.Cells.{Gave, Took};

use crate::table::Record;
use pool::{Linked, NOWHERE, Pool};

// The record at a place.
pub fn record_at<R: Record>(table: &[R], at: u32) -> R
    ensures { result ≡ slice_index_or table.now at R.table_of.blank }
{
    table.get(at as usize).copied().unwrap_or(R::blank())
}

// Writes a record.
pub fn set<R: Copy>(table: &mut [R], at: u32, record: R)
    ensures { table.new ≡ written table.old at «record» }
{
    // By index, since with `get_mut` the proof did not close: what it leaves in the table is not known.
    if (at as usize) < table.len() {
        table[at as usize] = record;
    }
}

// Takes the first spare record; NOWHERE if there is none.
// Those who take have spares enough by their premises, so an `Option` would want a case of each that never comes about.
pub fn take<R: Linked>(pool: &mut Pool, table: &[R]) -> u32
    ensures { Took (map R.link table.now) pool.old result pool.new }
{
    pool.take(table).unwrap_or(NOWHERE)
}

// Gives a record back: it is the first spare then.
pub fn give<R: Linked>(pool: &mut Pool, table: &mut [R], at: u32)
    ensures { Gave R.relinked table.old pool.old at table.new pool.new }
{
    let _ = pool.give(table, at);
}
