ghost use Rattle.std.specs.Prelude.{◌≡◌, ℕ, ◌<◌, ◌≤◌, true, List, [], length};
ghost use Rattle.bag.specs.Bag.{Lines};
ghost use Rattle.bag.specs.Operators.{pick};
ghost use Rattle.stock.specs.Holding.{shelf_of};
ghost use Rattle.plan.specs.Afresh.{board};
ghost use Rattle.delta.specs.NodeChange.{Setting, LinesOf};
ghost use Rattle.delta.specs.Writing.{SameTask, Written};
ghost use Rattle.delta.specs.Changed.{NodeChange};

use crate::images::gather_images;
use bag::lines::ChangeLine;
use delta::fault::NodeFault;
use delta::writer::ChangeWriter;
use stock::stock::Stock;
use table::table::Table;

// Writes the change of a pick: the images of the lines of the node below, added up.
pub fn change_of_pick<S: Stock>(
    writer: &mut ChangeWriter<S>,
    columns: &[u8],
    below: &[ChangeLine],
    work: &mut [ChangeLine],
) -> Result<(), NodeFault>
    ensures same { SameTask writer.old writer.new }
    ensures space { length work.new ≡ length work.old }
    ensures changed { (ws : List ℕ) (c : ℕ) (ds news : List Lines) → c < writer.old.node → Setting (S.Stock.meaning writer.old.stock.now) ws writer.old.node (pick columns.now (shelf_of (S.Stock.meaning writer.old.stock.now) c)) ds news → Written S.Stock.meaning writer.old [] → LinesOf c (board ds c) below.now → length below.now ≤ length work.old → NodeChange S.Stock.meaning writer.old writer.new (pick columns.now (board news c)) true result }
{
    let len = below.len().min(work.len());
    let mut table = Table::new(&mut work[..len]);
    gather_images(&mut table, columns, below);
    writer.append_all(table.entries())
}
