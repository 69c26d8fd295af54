ghost use Rattle.std.specs.Prelude.{◌≡◌, ℕ, ◌<◌, true, List, [], pos, ◌+ℤ◌};
ghost use Rattle.bag.specs.Bag.{Lines, count};
ghost use Rattle.bag.specs.Operators.{monus};
ghost use Rattle.stock.specs.Holding.{shelf_of};
ghost use Rattle.plan.specs.Afresh.{board};
ghost use Rattle.delta.specs.NodeChange.{Setting, LinesOf};
ghost use Rattle.delta.specs.Writing.{SameTask, Written};
ghost use Rattle.delta.specs.Changed.{NodeChange};
ghost use Rattle.delta_rows.specs.Less.{IsCount, less_at};

use crate::merge::{Merge, Turn};
use bag::lines::ChangeLine;
use delta::fault::NodeFault;
use delta::writer::ChangeWriter;
use stock::stock::Stock;

// One side of a less: a lower node and the lines of its change. It needs no width, as a pair's `Side` does: no row is made of two.
#[derive(Clone, Copy, PartialEq, Eq, Debug)]
pub struct Side<'a> {
    pub node: u8,
    pub lines: &'a [ChangeLine],
}

// The count of a row after its change. Both are of a node below, so the sum is a count and is not cut off.
fn count_after(old: u16, change: i32) -> u16
    ensures { IsCount (pos old +ℤ change) → pos result ≡ pos old +ℤ change }
{
    (old as i64 + change as i64).clamp(0, 65535) as u16
}

// By how much a row of a less over the nodes l and r changes: from the old and the new counts of both, as a surplus does not follow
// from changes alone.
fn change_of_row<S: Stock>(stock: &S, l: u8, r: u8, turn: &Turn) -> i32
    ensures { IsCount (count (shelf_of (S.Stock.meaning stock.now) l) turn.now.row +ℤ turn.now.left) → IsCount (count (shelf_of (S.Stock.meaning stock.now) r) turn.now.row +ℤ turn.now.right) → result ≡ less_at (shelf_of (S.Stock.meaning stock.now) l) (shelf_of (S.Stock.meaning stock.now) r) turn.now.row turn.now.left turn.now.right }
{
    let left = stock.count(l, &turn.row);
    let right = stock.count(r, &turn.row);
    let old = left.saturating_sub(right);
    let new = count_after(left, turn.left).saturating_sub(count_after(right, turn.right));
    new as i32 - old as i32
}

// Writes the change of a less over two nodes below: at each row that either changes, its surplus after less before.
pub fn change_of_less<S: Stock>(
    writer: &mut ChangeWriter<S>,
    left: &Side,
    right: &Side,
) -> Result<(), NodeFault>
    ensures same { SameTask writer.old writer.new }
    ensures changed { (ws : List ℕ) (ds news : List Lines) → left.now.node < writer.old.node → right.now.node < writer.old.node → Setting (S.Stock.meaning writer.old.stock.now) ws writer.old.node (monus (shelf_of (S.Stock.meaning writer.old.stock.now) left.now.node) (shelf_of (S.Stock.meaning writer.old.stock.now) right.now.node)) ds news → Written S.Stock.meaning writer.old [] → LinesOf left.now.node (board ds left.now.node) left.now.lines.now → LinesOf right.now.node (board ds right.now.node) right.now.lines.now → NodeChange S.Stock.meaning writer.old writer.new (monus (board news left.now.node) (board news right.now.node)) true result }
{
    for turn in Merge::new(left.lines, right.lines) {
        let change = change_of_row(writer.stock(), left.node, right.node, &turn);
        writer.append(&turn.row, change)?;
    }
    Ok(())
}
