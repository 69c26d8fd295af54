ghost use Rattle.std.specs.Prelude.{◌≡◌, suc, ◌<◌, ◌≤◌, length, ◌+ℤ◌, FitsSigned};
ghost use Rattle.std.specs.Int.{w32};
ghost use Rattle.bag.specs.Order.{Row};
ghost use Rattle.bag.specs.Bag.{Lines, copies_at, count};
ghost use Rattle.table.specs.Tables.{capacity, SameRun};
ghost use Rattle.sheet.specs.Sheets.{change_line};
ghost use Rattle.delta_groups.specs.Nets.{added, Nets};

use bag::lines::ChangeLine;
use bag::row::Row;
use table::table::Table;

// The entry of a row in a table where copies are added up; as a key, whatever its number is.
pub(crate) fn net_line(row: &Row, net: i32) -> ChangeLine
    ensures { result ≡ change_line 0 (row.now, net) }
{
    ChangeLine {
        node: 0,
        row: *row,
        change: net,
    }
}

// How many copies of a row were added up so far.
fn net_of(table: &Table<ChangeLine>, row: &Row) -> i32
    ensures { (xs : Lines) → Nets table.now xs → result ≡ count xs row.now }
{
    let Some(place) = table.find(&net_line(row, 0)) else {
        return 0;
    };
    table.get(place).map_or(0, |line| line.change)
}

// Adds copies of a row to the table. A row whose copies come to 0 stays, since what else is known of it may have changed.
pub fn gather(table: &mut Table<ChangeLine>, row: &Row, copies: i32)
    ensures same { SameRun table.old table.new }
    ensures after { (xs : Lines) → Nets table.old xs → length xs < capacity table.old → FitsSigned w32 (count xs row.now +ℤ copies) → Nets table.new (added row.now copies xs) }
    ensures counts { (xs : Lines) (q : Row) → count (added row.now copies xs) q ≡ copies_at q row.now copies +ℤ count xs q }
    ensures longer { (xs : Lines) → length (added row.now copies xs) ≤ suc (length xs) }
{
    let net = net_of(table, row).saturating_add(copies);
    let _ = table.add(net_line(row, net));
}
