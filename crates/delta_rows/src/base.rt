ghost use Rattle.std.specs.Prelude.{◌≡◌, ℕ, true, List, []};
ghost use Rattle.bag.specs.Bag.{Lines};
ghost use Rattle.bag.specs.Changes.{Changes};
ghost use Rattle.sheet.specs.Sheets.{of_node};
ghost use Rattle.delta.specs.NodeChange.{Setting};
ghost use Rattle.delta.specs.Writing.{SameTask, Written};
ghost use Rattle.delta.specs.Changed.{NodeChange};

use bag::lines::ChangeLine;
use delta::fault::NodeFault;
use delta::writer::ChangeWriter;
use stock::stock::Stock;

// Writes the change of a base: `nets` are the copies put less the copies taken of each of its rows, in row order and without 0.
pub fn change_of_base<S: Stock>(
    writer: &mut ChangeWriter<S>,
    nets: &[ChangeLine],
) -> Result<(), NodeFault>
    ensures same { SameTask writer.old writer.new }
    ensures changed { (ws : List ℕ) (old d new : Lines) (ds news : List Lines) → Setting (S.Stock.meaning writer.old.stock.now) ws writer.old.node old ds news → Written S.Stock.meaning writer.old [] → nets.now ≡ of_node writer.old.node d → Changes old d new → NodeChange S.Stock.meaning writer.old writer.new new true result }
{
    writer.append_all(nets)
}
