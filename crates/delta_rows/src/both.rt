ghost use Rattle.std.specs.Prelude.{ℕ, ◌<◌, true, List, []};
ghost use Rattle.bag.specs.Bag.{Lines};
ghost use Rattle.bag.specs.Operators.{both};
ghost use Rattle.stock.specs.Holding.{shelf_of};
ghost use Rattle.plan.specs.Afresh.{board};
ghost use Rattle.delta.specs.NodeChange.{Setting, LinesOf};
ghost use Rattle.delta.specs.Writing.{SameTask, Written};
ghost use Rattle.delta.specs.Changed.{NodeChange};

use crate::merge::Merge;
use bag::lines::ChangeLine;
use delta::fault::NodeFault;
use delta::writer::ChangeWriter;
use stock::stock::Stock;

// Writes the change of a both: the sum of the changes of the two nodes below, row by row.
pub fn change_of_both<S: Stock>(
    writer: &mut ChangeWriter<S>,
    left: &[ChangeLine],
    right: &[ChangeLine],
) -> Result<(), NodeFault>
    ensures same { SameTask writer.old writer.new }
    ensures changed { (ws : List ℕ) (l r : ℕ) (ds news : List Lines) → l < writer.old.node → r < writer.old.node → Setting (S.Stock.meaning writer.old.stock.now) ws writer.old.node (both (shelf_of (S.Stock.meaning writer.old.stock.now) l) (shelf_of (S.Stock.meaning writer.old.stock.now) r)) ds news → Written S.Stock.meaning writer.old [] → LinesOf l (board ds l) left.now → LinesOf r (board ds r) right.now → NodeChange S.Stock.meaning writer.old writer.new (both (board news l) (board news r)) true result }
{
    for turn in Merge::new(left, right) {
        // changes are far from the ends of an i32, so the sum is exact
        writer.append(&turn.row, turn.left.saturating_add(turn.right))?;
    }
    Ok(())
}
