ghost use Rattle.std.specs.Prelude.{◌≡◌, ℕ, ◌<◌, ◌≤◌, [], length, get_or, slice_index_or};
ghost use Rattle.bag.specs.Order.{row_order};
ghost use Rattle.bag.specs.Bag.{Line, Lines};
ghost use Rattle.delta.specs.NodeChange.{LinesOf};
ghost use Rattle.delta_groups.specs.Nets.{Nets};
ghost use Rattle.delta_groups.specs.Groups.{plus_if_equal, ValuesOf};

use crate::gather::net_line;
use crate::group::Grouping;
use crate::image::image;
use bag::lines::ChangeLine;
use bag::row::Row;
use measure::follow::line_worth;
use measure::measure::Measure;
use table::table::Table;

// Adds a worth to the value of a group, which stands where the group stands in the table.
fn add_worth<M: Measure>(
    measure: &M,
    table: &Table<ChangeLine>,
    values: &mut [M::Value],
    group: &Row,
    worth: M::Value,
)
    ensures long { length values.new ≡ length values.old }
    ensures after { (xs : Lines) → Nets table.now xs → length xs ≤ length values.old → (i : ℕ) (e : Line) (z : M.Value) → i < length xs → slice_index_or values.new i z ≡ plus_if_equal M.Measure.model.group (row_order group.now (get_or xs i e).0) (slice_index_or values.old i z) worth }
{
    if let Some(place) = table.find(&net_line(group, 0)) {
        // `get_mut` would say nothing of the values that are left
        if place < values.len() {
            values[place] = measure.plus(values[place], worth);
        }
    }
}

// Adds the worth of each line of the node below to the value of its group; a taken line's worth is taken away.
pub(crate) fn add_worths<M: Measure>(
    grouping: &Grouping<M>,
    below: &[ChangeLine],
    table: &Table<ChangeLine>,
    values: &mut [M::Value],
)
    ensures long { length values.new ≡ length values.old }
    ensures after { (c : ℕ) (d xs : Lines) → LinesOf c d below.now → Nets table.now xs → length xs ≤ length values.old → ValuesOf M.Measure.model grouping.now.measured grouping.now.columns.now [] xs values.old → ValuesOf M.Measure.model grouping.now.measured grouping.now.columns.now d xs values.new }
{
    for line in below {
        let group = image(&line.row, grouping.columns);
        let worth = line_worth(grouping.measure, line, grouping.measured as usize);
        add_worth(grouping.measure, table, values, &group, worth);
    }
}
