ghost use Rattle.std.specs.Prelude.{◌≡◌};
ghost use Rattle.plan.specs.Plans.{nodes_of};
ghost use Rattle.nets.specs.Gathered.{clear_from, of_base};

use bag::row::Row;
use message::record::Record;
use plan::node::Node;
use plan::plan::Plan;

// Whether the columns of a row from `width` on hold 0.
fn is_clear_from(width: u8, row: &Row) -> bool
    ensures { result ≡ clear_from width row.now }
{
    row.iter().skip(width as usize).all(|column| *column == 0)
}

// Whether a record is of a base of the plan: its node is one, and its row has nothing past that base's width.
pub(crate) fn is_of_base(plan: &Plan, movement: &Record) -> bool
    ensures { result ≡ of_base (nodes_of plan.now) movement.now }
{
    let Some(Node::Base { width }) = plan.node(movement.node as usize) else {
        return false;
    };
    is_clear_from(width, &movement.row)
}
