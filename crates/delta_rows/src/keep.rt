ghost use Rattle.std.specs.Prelude.{◌≡◌, ℕ, ◌<◌, true, List, []};
ghost use Rattle.bag.specs.Bag.{Lines};
ghost use Rattle.stock.specs.Holding.{shelf_of};
ghost use Rattle.plan.specs.Afresh.{board};
ghost use Rattle.delta.specs.NodeChange.{Setting, LinesOf};
ghost use Rattle.delta.specs.Writing.{SameTask, Written};
ghost use Rattle.delta.specs.Changed.{NodeChange};
ghost use Rattle.delta_rows.specs.Keep.{kept_by};

use crate::condition::Condition;
use bag::lines::ChangeLine;
use delta::fault::NodeFault;
use delta::writer::ChangeWriter;
use stock::stock::Stock;

// Writes the change of a keep: the lines of the node below that pass.
pub fn change_of_keep<S: Stock>(
    writer: &mut ChangeWriter<S>,
    condition: &Condition,
    below: &[ChangeLine],
) -> Result<(), NodeFault>
    ensures same { SameTask writer.old writer.new }
    ensures changed { (ws : List ℕ) (c : ℕ) (ds news : List Lines) → c < writer.old.node → Setting (S.Stock.meaning writer.old.stock.now) ws writer.old.node (kept_by condition.now (shelf_of (S.Stock.meaning writer.old.stock.now) c)) ds news → Written S.Stock.meaning writer.old [] → LinesOf c (board ds c) below.now → NodeChange S.Stock.meaning writer.old writer.new (kept_by condition.now (board news c)) true result }
{
    for line in below {
        if condition.passes(&line.row) {
            writer.append(&line.row, line.change)?;
        }
    }
    Ok(())
}
