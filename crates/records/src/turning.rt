// Taking the first records off a row.
ghost use Rattle.std.specs.Prelude.{◌≡◌, ◌<◌, ◌≤◌, map, length, Some, None, slice_index};
ghost use Rattle.pool.specs.Chain.{nowhere, modify};
ghost use Rattle.records.specs.Turning.{turned};

use pool::{Linked, NOWHERE};

// The records that were taken, in the opposite order, and what was behind them.
#[derive(Clone, Copy)]
pub struct TurnedRow {
    pub row: u32,
    pub rest: u32,
}

// Links one record to `row` and tells what was behind it, or None where there is no such record.
fn relink<R: Linked>(table: &mut [R], at: u32, row: u32) -> Option<u32>
    ensures { elim result [
      | None ↦ (length table.old ≤ at) × (table.new ≡ table.old)
      | Some next ↦ (at < length table.old) × (table.new ≡ modify (λ x. R.relinked x row) at table.old) × (next ≡ slice_index (map R.link table.old) at)
    ] }
{
    // By index, since with `get_mut` the proof did not close: what it leaves in the table is not known.
    if at as usize >= table.len() {
        return None;
    }
    let next = table[at as usize].next();
    table[at as usize].set_next(row);
    Some(next)
}

// Takes the first `count` records off a row and turns them round, by their links alone.
pub fn turn<R: Linked>(table: &mut [R], top: u32, count: u32) -> TurnedRow
    ensures { turned R.link R.relinked count table.old top nowhere ≡ record { table = table.new; row = result.row; rest = result.rest } }
{
    let mut row = NOWHERE;
    let mut rest = top;
    for _i in 0..count {
        let Some(next) = relink(table, rest, row) else {
            return TurnedRow { row, rest };
        };
        row = rest;
        rest = next;
    }
    TurnedRow { row, rest }
}
