ghost use Rattle.std.specs.Prelude.{◌≡◌, ◌≤◌, length, take, ℤ, pos, Some};
ghost use Rattle.std.specs.Ordering.{is_eq};
ghost use Rattle.bag.specs.Order.{row_order};
ghost use Rattle.bag.specs.Propagation.{below_group, read_row, read_group};
ghost use Rattle.stock.specs.Holding.{shelf_of};
ghost use Rattle.delta_groups.specs.Groups.{IsGroup, RoomForGroup, row_if_there};

use bag::row::{Row, compare_rows};
use measure::columns::{column_of, columns_from, followed_by};
use measure::measure::Measure;
use stock::stock::Stock;

// Of all rows the least.
const LOWEST_ROW: Row = [i32::MIN; 8];

// How a total groups rows: by the listed columns. Of each group it shows its copies and what the measure makes of the measured column.
#[derive(Clone, Copy)]
pub struct Grouping<'a, M> {
    pub measure: &'a M,
    pub measured: u8,
    pub columns: &'a [u8],
}

// A row less than those of the group and greater than those of all lower groups: copies are never the smallest number.
fn below(group: &Row, width: usize) -> Row
    ensures { width ≤ 8 → result ≡ below_group width group.now }
{
    followed_by(group, width, &LOWEST_ROW)
}

// Whether a row is the group's.
fn belongs(row: &Row, group: &Row, width: usize) -> bool
    ensures { width ≤ 7 → IsGroup width group.now → result ≡ is_eq (row_order (take width row.now) (take width group.now)) }
{
    compare_rows(&followed_by(row, width, &[0; 8]), group).is_eq()
}

impl<'a, M: Measure> Grouping<'a, M> {
    // The row of a group that has copies: its values, its copies, and what the measure shows of its value; none if the value does not
    // fit. Whatever its value, a group without copies has none.
    pub fn row_if_there(&self, group: &Row, copies: i32, value: M::Value) -> Option<Row>
        ensures { result ≡ row_if_there M.Measure.model (length self.now.columns.now) group.now copies value }
    {
        if copies == 0 {
            return None;
        }
        let shown = self.measure.show(value)?;
        let front = [copies, 0, 0, 0, 0, 0, 0, 0];
        let behind = followed_by(&front, 1, &shown);
        Some(followed_by(group, self.columns.len(), &behind))
    }

    // Copies and value of a group that has no row.
    fn no_copies(&self) -> (i32, M::Value)
        ensures { result ≡ (pos 0, M.Measure.model.group.zero) }
    {
        (0, self.measure.zero())
    }

    // Copies and value of a group, as a row of its total shows them; none if the row is another group's.
    fn read_row(&self, group: &Row, row: &Row) -> (i32, M::Value)
        ensures { (n : ℤ) → RoomForGroup M.Measure.model (length self.now.columns.now) → IsGroup (length self.now.columns.now) group.now → result ≡ read_row M.Measure.model (length self.now.columns.now) group.now (Some (row.now, n)) }
    {
        let width = self.columns.len();
        if !belongs(row, group, width) {
            return self.no_copies();
        }
        let shown = columns_from(row, width + 1);
        (column_of(row, width), self.measure.read_back(&shown))
    }

    // Copies and value of a group, read back from the bag of its total by one look.
    pub fn read_group<S: Stock>(&self, stock: &S, node: u8, group: &Row) -> (i32, M::Value)
        ensures { RoomForGroup M.Measure.model (length self.now.columns.now) → IsGroup (length self.now.columns.now) group.now → result ≡ read_group M.Measure.model (length self.now.columns.now) (shelf_of (S.Stock.meaning stock.now) node) group.now }
    {
        let Some(found) = stock.next(node, &below(group, self.columns.len())) else {
            return self.no_copies();
        };
        let row = found.0;
        self.read_row(group, &row)
    }
}
