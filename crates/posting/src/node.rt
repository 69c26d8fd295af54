ghost use Rattle.std.specs.Prelude.{◌≡◌, ℕ, ◌<◌, ◌≤◌, true, List, [], length, slice_index, slice_index_or};
ghost use Rattle.bag.specs.Bag.{Lines};
ghost use Rattle.bag.specs.Operators.{keep, total, all_groups_fit};
ghost use Rattle.stock.specs.Holding.{shelf_of};
ghost use Rattle.plan.specs.declared.node.Node.{Node};
ghost use Rattle.plan.specs.Afresh.{board, afresh};
ghost use Rattle.plan.specs.Plans.{nodes_of, widths_of};
ghost use Rattle.sheet.specs.Sheets.{of_node, flattened};
ghost use Rattle.delta.specs.NodeChange.{Setting};
ghost use Rattle.delta.specs.Writing.{SameTask, Written};
ghost use Rattle.delta.specs.Changed.{NodeChange};
ghost use Rattle.delta_groups.specs.Groups.{RoomForGroup};
ghost use Rattle.posting.specs.Working.{groups_fit, Ready};
ghost use Rattle.posting.specs.Changes.{changes_to, LowerNodes};

use crate::lines::lines_of_node;
use crate::space::WorkSpace;
use bag::condition::{Operand, Relation};
use bag::lines::ChangeLine;
use delta::fault::NodeFault;
use delta::writer::ChangeWriter;
use delta_groups::group::Grouping;
use delta_groups::pick::change_of_pick;
use delta_groups::total::change_of_total;
use delta_pairs::pairs::change_of_pair;
use delta_pairs::side::Side as PairSide;
use delta_rows::base::change_of_base;
use delta_rows::both::change_of_both;
use delta_rows::condition::Condition;
use delta_rows::keep::change_of_keep;
use delta_rows::less::{Side, change_of_less};
use measure::measure::Measure;
use plan::node::Node;
use plan::plan::Plan;
use stock::stock::Stock;

// What a posting is worked out from: the stock with the old boards, the measure, the plan, and the movements of all bases, by node
// and row.
#[derive(Clone, Copy)]
pub struct Posting<'a, S, M> {
    pub stock: &'a S,
    pub measure: &'a M,
    pub plan: &'a Plan,
    pub nets: &'a [ChangeLine],
}

// A side of a pair: a lower node with the width of its rows and its lines.
fn side_of<'a>(plan: &Plan, done: &'a [ChangeLine], node: u8) -> PairSide<'a>
    ensures node { result.node ≡ node }
    ensures width { node < length (nodes_of plan.now) → result.width ≡ slice_index (widths_of plan.now) node }
    ensures lines { (ds : List Lines) → done.now ≡ flattened 0 ds → result.lines.now ≡ of_node node (board ds node) }
{
    PairSide {
        node,
        width: plan.width(node as usize).unwrap_or(0),
        lines: lines_of_node(done, node),
    }
}

// A side of a less: a lower node with its lines.
fn side_of_less<'a>(done: &'a [ChangeLine], node: u8) -> Side<'a>
    ensures node { result.node ≡ node }
    ensures lines { (ds : List Lines) → done.now ≡ flattened 0 ds → result.lines.now ≡ of_node node (board ds node) }
{
    Side {
        node,
        lines: lines_of_node(done, node),
    }
}

// Writes the change of a keep over the node `child`: its rows whose column stands so to the operand.
fn change_of_kept<S: Stock>(
    writer: &mut ChangeWriter<S>,
    done: &[ChangeLine],
    child: u8,
    column: u8,
    relation: Relation,
    operand: Operand,
) -> Result<(), NodeFault>
    ensures same { SameTask writer.old writer.new }
    ensures changed { (ws : List ℕ) (ds news : List Lines) → child < writer.old.node → Setting (S.Stock.meaning writer.old.stock.now) ws writer.old.node (keep column relation operand (shelf_of (S.Stock.meaning writer.old.stock.now) child)) ds news → Written S.Stock.meaning writer.old [] → done.now ≡ flattened 0 ds → length done.now ≤ 8192 → NodeChange S.Stock.meaning writer.old writer.new (keep column relation operand (board news child)) true result }
{
    let condition = Condition {
        column,
        relation,
        operand,
    };
    change_of_keep(writer, &condition, lines_of_node(done, child))
}

impl<'a, S: Stock, M: Measure> Posting<'a, S, M> {
    // Writes the change of a total over the node `child`, grouped by `columns`.
    fn change_of_groups(
        &self,
        writer: &mut ChangeWriter<S>,
        done: &[ChangeLine],
        space: &mut WorkSpace<M::Value>,
        child: u8,
        measured: u8,
        columns: &[u8],
    ) -> Result<(), NodeFault>
        ensures same { SameTask writer.old writer.new }
        ensures changed { (ws : List ℕ) (ds news : List Lines) → child < writer.old.node → Setting (S.Stock.meaning writer.old.stock.now) ws writer.old.node (total M.Measure.model measured columns.now (shelf_of (S.Stock.meaning writer.old.stock.now) child)) ds news → Written S.Stock.meaning writer.old [] → done.now ≡ flattened 0 ds → length done.now ≤ 8192 → RoomForGroup M.Measure.model (length columns.now) → all_groups_fit M.Measure.model measured columns.now (shelf_of (S.Stock.meaning writer.old.stock.now) child) ≡ true → NodeChange S.Stock.meaning writer.old writer.new (total M.Measure.model measured columns.now (board news child)) (all_groups_fit M.Measure.model measured columns.now (board news child)) result }
    {
        let below = lines_of_node(done, child);
        let grouping = Grouping {
            measure: self.measure,
            measured,
            columns,
        };
        let WorkSpace { lines, values } = space;
        change_of_total(writer, &grouping, below, lines, values)
    }

    // Writes the change of one node of the plan, by its operator; `done` are the lines of the nodes below. Of the nets it reads the
    // node's own alone, so those of other bases may be missing.
    pub fn change_of_node(
        &self,
        writer: &mut ChangeWriter<S>,
        done: &[ChangeLine],
        space: &mut WorkSpace<M::Value>,
    ) -> Result<(), NodeFault>
        ensures same { SameTask writer.old writer.new }
        ensures changed { (moves : ℕ → Lines) (ms : List Lines) (net net' : ℕ → Lines) (d : Node) → self.now.plan.now.shown ≡ M.Measure.model.shows → Ready M.Measure.model (nodes_of self.now.plan.now) (widths_of self.now.plan.now) (S.Stock.meaning writer.old.stock.now) moves net net' → self.now.nets.now ≡ flattened 0 ms → board ms writer.old.node ≡ moves writer.old.node → writer.old.node < length (nodes_of self.now.plan.now) → LowerNodes (widths_of self.now.plan.now) (S.Stock.meaning writer.old.stock.now) (afresh M.Measure.model (nodes_of self.now.plan.now) net') writer.old.node → done.now ≡ flattened 0 (changes_to (S.Stock.meaning writer.old.stock.now) (afresh M.Measure.model (nodes_of self.now.plan.now) net') writer.old.node) → length done.now ≤ 8192 → Written S.Stock.meaning writer.old [] → NodeChange S.Stock.meaning writer.old writer.new (board (afresh M.Measure.model (nodes_of self.now.plan.now) net') writer.old.node) (groups_fit M.Measure.model (slice_index_or (nodes_of self.now.plan.now) writer.old.node d) (afresh M.Measure.model (nodes_of self.now.plan.now) net')) result }
    {
        let node = writer.node();
        let Some(operator) = self.plan.node(node as usize) else {
            return Ok(());
        };
        match operator {
            Node::Base { .. } => change_of_base(writer, lines_of_node(self.nets, node)),
            Node::Keep {
                child,
                column,
                relation,
                operand,
            } => change_of_kept(writer, done, child, column, relation, operand),
            Node::Pick { child, columns } => {
                let below = lines_of_node(done, child);
                change_of_pick(writer, columns.as_slice(), below, &mut space.lines)
            }
            Node::Pair { left, right, pairs } => {
                let l = side_of(self.plan, done, left);
                let r = side_of(self.plan, done, right);
                change_of_pair(writer, l, r, pairs.as_slice())
            }
            Node::Both { left, right } => {
                let l = lines_of_node(done, left);
                let r = lines_of_node(done, right);
                change_of_both(writer, l, r)
            }
            Node::Less { left, right } => {
                let l = side_of_less(done, left);
                let r = side_of_less(done, right);
                change_of_less(writer, &l, &r)
            }
            Node::Total {
                child,
                measured,
                columns,
            } => self.change_of_groups(writer, done, space, child, measured, columns.as_slice()),
        }
    }
}
