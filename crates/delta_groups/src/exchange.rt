ghost use Rattle.std.specs.Prelude.{◌≡◌, [], ◌∷◌, ◌++◌, length, ℤ, pos, negsuc};
ghost use Rattle.bag.specs.Order.{Row};
ghost use Rattle.bag.specs.Bag.{Lines, collect, negated, every_line};
ghost use Rattle.stock.specs.Holding.{shelf_of};
ghost use Rattle.delta.specs.Writing.{SameTask, Written, Wrote};
ghost use Rattle.delta_groups.specs.Groups.{RoomForGroup, one_of};
ghost use Rattle.delta_groups.specs.Totals.{exchange_of, exchanges, fit_after, Ready, GroupsReady, Exchanged};

use crate::group::Grouping;
use bag::lines::ChangeLine;
use bag::row::{Row, compare_rows};
use delta::fault::NodeFault;
use delta::writer::ChangeWriter;
use measure::measure::Measure;
use std::cmp::Ordering;
use stock::stock::Stock;

// Writes that an old row goes and a new row comes, in the order of rows; of equal rows nothing.
fn exchange_rows<S: Stock>(
    writer: &mut ChangeWriter<S>,
    old: &Row,
    new: &Row,
) -> Result<(), NodeFault>
    ensures same { SameTask writer.old writer.new }
    ensures after { (d : Lines) → Written S.Stock.meaning writer.old d → Wrote S.Stock.meaning writer.old writer.new (d ++ collect ((old.now, negsuc 0) ∷ (new.now, pos 1) ∷ [])) result }
{
    match compare_rows(old, new) {
        Ordering::Less => {
            writer.append(old, -1)?;
            writer.append(new, 1)
        }
        Ordering::Equal => Ok(()),
        Ordering::Greater => {
            writer.append(new, 1)?;
            writer.append(old, -1)
        }
    }
}

// The same where there may be no old or no new row.
fn exchange_if_there<S: Stock>(
    writer: &mut ChangeWriter<S>,
    old: Option<Row>,
    new: Option<Row>,
) -> Result<(), NodeFault>
    ensures same { SameTask writer.old writer.new }
    ensures after { (d : Lines) → Written S.Stock.meaning writer.old d → Wrote S.Stock.meaning writer.old writer.new (d ++ collect (negated (one_of old) ++ one_of new)) result }
{
    match (old, new) {
        (None, None) => Ok(()),
        (Some(old), None) => writer.append(&old, -1),
        (None, Some(new)) => writer.append(&new, 1),
        (Some(old), Some(new)) => exchange_rows(writer, &old, &new),
    }
}

// Exchanges the rows of one group, to whose copies the change adds the line's number and to whose value `worth`. A group that has
// copies then, but no row, has a value that does not fit.
fn exchange_group<S: Stock, M: Measure>(
    writer: &mut ChangeWriter<S>,
    grouping: &Grouping<M>,
    group: &ChangeLine,
    worth: M::Value,
) -> Result<(), NodeFault>
    ensures same { SameTask writer.old writer.new }
    ensures after { (d : Lines) (delta : Row → ℤ × M.Value) → RoomForGroup M.Measure.model (length grouping.now.columns.now) → Ready M.Measure.model (length grouping.now.columns.now) (shelf_of (S.Stock.meaning writer.old.stock.now) writer.old.node) delta group.now.row → delta group.now.row ≡ (group.now.change, worth) → Written S.Stock.meaning writer.old d → Exchanged S.Stock.meaning writer.old writer.new (d ++ exchange_of M.Measure.model (length grouping.now.columns.now) (shelf_of (S.Stock.meaning writer.old.stock.now) writer.old.node) delta group.now.row) (fit_after M.Measure.model (length grouping.now.columns.now) (shelf_of (S.Stock.meaning writer.old.stock.now) writer.old.node) delta group.now.row group.now.change) result }
{
    let (copies, value) = grouping.read_group(writer.stock(), writer.node(), &group.row);
    let old = grouping.row_if_there(&group.row, copies, value);
    let new_copies = copies.saturating_add(group.change);
    let new_value = grouping.measure.plus(value, worth);
    let new = grouping.row_if_there(&group.row, new_copies, new_value);
    if new_copies != 0 && new.is_none() {
        return Err(NodeFault::Wide);
    }
    exchange_if_there(writer, old, new)
}

// Exchanges the rows of all groups that the change touches.
pub(crate) fn exchange_groups<S: Stock, M: Measure>(
    writer: &mut ChangeWriter<S>,
    grouping: &Grouping<M>,
    groups: &[ChangeLine],
    values: &[M::Value],
) -> Result<(), NodeFault>
    ensures same { SameTask writer.old writer.new }
    ensures after { (xs : Lines) (delta : Row → ℤ × M.Value) → RoomForGroup M.Measure.model (length grouping.now.columns.now) → GroupsReady M.Measure.model (length grouping.now.columns.now) (shelf_of (S.Stock.meaning writer.old.stock.now) writer.old.node) delta xs groups.now values.now → Written S.Stock.meaning writer.old [] → Exchanged S.Stock.meaning writer.old writer.new (exchanges M.Measure.model (length grouping.now.columns.now) (shelf_of (S.Stock.meaning writer.old.stock.now) writer.old.node) delta xs) (every_line (fit_after M.Measure.model (length grouping.now.columns.now) (shelf_of (S.Stock.meaning writer.old.stock.now) writer.old.node) delta) xs) result }
{
    for (group, worth) in groups.iter().zip(values) {
        exchange_group(writer, grouping, group, *worth)?;
    }
    Ok(())
}
