ghost use Rattle.std.specs.Prelude.{◌≡◌, ℕ, ◌<◌, ◌≤◌, true, List, [], length};
ghost use Rattle.bag.specs.Bag.{Lines};
ghost use Rattle.bag.specs.Operators.{total, all_groups_fit};
ghost use Rattle.stock.specs.Holding.{shelf_of};
ghost use Rattle.plan.specs.Afresh.{board};
ghost use Rattle.delta.specs.NodeChange.{Setting, LinesOf};
ghost use Rattle.delta.specs.Writing.{SameTask, Written};
ghost use Rattle.delta.specs.Changed.{NodeChange};
ghost use Rattle.delta_groups.specs.Groups.{RoomForGroup};

use crate::exchange::exchange_groups;
use crate::group::Grouping;
use crate::images::gather_images;
use crate::values::add_worths;
use bag::lines::ChangeLine;
use delta::fault::NodeFault;
use delta::writer::ChangeWriter;
use measure::measure::Measure;
use stock::stock::Stock;
use table::table::Table;

// Writes the change of a total: of each group that the node below touches the old row goes and the new row comes. The old rows are
// read back from the total's own bag, so no other bag is needed.
// Copies are added up in a table on `work`, then values beside it in `values`, since places do not move any more. The values stand
// beside the lines and not in one array with them: a blank entry would need a value, which only a measure at hand gives. No other
// function takes both, so a struct of the two would be built for one call and taken apart in it.
pub fn change_of_total<S: Stock, M: Measure>(
    writer: &mut ChangeWriter<S>,
    grouping: &Grouping<M>,
    below: &[ChangeLine],
    work: &mut [ChangeLine],
    values: &mut [M::Value],
) -> Result<(), NodeFault>
    ensures same { SameTask writer.old writer.new }
    ensures space { length work.new ≡ length work.old }
    ensures places { length values.new ≡ length values.old }
    ensures changed { (ws : List ℕ) (c : ℕ) (ds news : List Lines) → c < writer.old.node → Setting (S.Stock.meaning writer.old.stock.now) ws writer.old.node (total M.Measure.model grouping.now.measured grouping.now.columns.now (shelf_of (S.Stock.meaning writer.old.stock.now) c)) ds news → Written S.Stock.meaning writer.old [] → LinesOf c (board ds c) below.now → length below.now ≤ length work.old → length below.now ≤ length values.old → RoomForGroup M.Measure.model (length grouping.now.columns.now) → all_groups_fit M.Measure.model grouping.now.measured grouping.now.columns.now (shelf_of (S.Stock.meaning writer.old.stock.now) c) ≡ true → NodeChange S.Stock.meaning writer.old writer.new (total M.Measure.model grouping.now.measured grouping.now.columns.now (board news c)) (all_groups_fit M.Measure.model grouping.now.measured grouping.now.columns.now (board news c)) result }
{
    let len = below.len().min(work.len()).min(values.len());
    let values = &mut values[..len];
    let mut table = Table::new(&mut work[..len]);
    gather_images(&mut table, grouping.columns, below);
    let zero = grouping.measure.zero();
    // `fill` clones its value, and of a clone the bound `Copy` promises nothing
    values.fill_with(|| zero);
    add_worths(grouping, below, &table, values);
    exchange_groups(writer, grouping, table.entries(), values)
}
