ghost use Rattle.std.specs.Prelude.{◌≡◌, ℕ, ◌<◌, ◌≤◌, List, [], length, replicate, slice_index_or};
ghost use Rattle.bag.specs.Lines.{blank_change_line};
ghost use Rattle.bag.specs.Bag.{Lines};
ghost use Rattle.plan.specs.declared.node.Node.{Node};
ghost use Rattle.plan.specs.Afresh.{board, afresh};
ghost use Rattle.plan.specs.Plans.{nodes_of, widths_of};
ghost use Rattle.sheet.specs.Sheets.{flattened, OnSheet};
ghost use Rattle.posting.specs.Working.{Ready, Worked};
ghost use Rattle.posting.specs.Changes.{changes_to, LowerNodes, Reached, PageStep, Step};

use crate::fault::WorkFault;
use crate::node::Posting;
use crate::space::WorkSpace;
use bag::lines::ChangeLine;
use delta::writer::ChangeWriter;
use measure::measure::Measure;
use plan::plan::Plan;
use stock::stock::Stock;

impl<'a, S: Stock, M: Measure> Posting<'a, S, M> {
    // Writes the change of one node on a page, and answers how many lines it has; `done` are the lines of the nodes below.
    fn write_node(
        &self,
        node: u8,
        space: &mut WorkSpace<M::Value>,
        done: &[ChangeLine],
        page: &mut [ChangeLine],
    ) -> Result<usize, WorkFault>
        ensures long { length page.new ≡ length page.old }
        ensures wrote { (ms : List Lines) (net net' : ℕ → Lines) (d : Node) → self.now.plan.now.shown ≡ M.Measure.model.shows → Ready M.Measure.model (nodes_of self.now.plan.now) (widths_of self.now.plan.now) (S.Stock.meaning self.now.stock.now) (board ms) net net' → self.now.nets.now ≡ flattened 0 ms → node < length (nodes_of self.now.plan.now) → LowerNodes (widths_of self.now.plan.now) (S.Stock.meaning self.now.stock.now) (afresh M.Measure.model (nodes_of self.now.plan.now) net') node → done.now ≡ flattened 0 (changes_to (S.Stock.meaning self.now.stock.now) (afresh M.Measure.model (nodes_of self.now.plan.now) net') node) → length done.now ≤ 8192 → page.old ≡ replicate (length page.old) blank_change_line → PageStep M.Measure.model (S.Stock.meaning self.now.stock.now) (afresh M.Measure.model (nodes_of self.now.plan.now) net') node (slice_index_or (nodes_of self.now.plan.now) node d) page.new result }
    {
        let mut writer = ChangeWriter::new(self.stock, node, page);
        self.change_of_node(&mut writer, done, space)
            .map_err(|fault| WorkFault::at(node, fault))?;
        writer.lines().ok_or(WorkFault::Paper { node })
    }

    // Puts the change of one node behind the `used` lines of a sheet, and answers how many lines it has then.
    // `sheet` and `used` stay two: `fill` is lent the sheet and answers `used`, so a struct of both would last for its one loop.
    fn append_node(
        &self,
        node: u8,
        space: &mut WorkSpace<M::Value>,
        sheet: &mut [ChangeLine],
        used: usize,
    ) -> Result<usize, WorkFault>
        ensures long { length sheet.new ≡ length sheet.old }
        ensures step { (ms : List Lines) (net net' : ℕ → Lines) (d : Node) → self.now.plan.now.shown ≡ M.Measure.model.shows → Ready M.Measure.model (nodes_of self.now.plan.now) (widths_of self.now.plan.now) (S.Stock.meaning self.now.stock.now) (board ms) net net' → self.now.nets.now ≡ flattened 0 ms → node < length (nodes_of self.now.plan.now) → Reached (widths_of self.now.plan.now) (S.Stock.meaning self.now.stock.now) (afresh M.Measure.model (nodes_of self.now.plan.now) net') node (length sheet.old) sheet.old used → Step M.Measure.model (S.Stock.meaning self.now.stock.now) (afresh M.Measure.model (nodes_of self.now.plan.now) net') (length sheet.old) used node (slice_index_or (nodes_of self.now.plan.now) node d) sheet.new result }
    {
        let used = used.min(sheet.len());
        let (done, page) = sheet.split_at_mut(used);
        let lines = self.write_node(node, space, done, page)?;
        Ok(used.saturating_add(lines))
    }

    // The change of every node on a sheet that may be filled whole.
    fn fill(
        &self,
        space: &mut WorkSpace<M::Value>,
        sheet: &mut [ChangeLine],
    ) -> Result<usize, WorkFault>
        ensures long { length sheet.new ≡ length sheet.old }
        ensures worked { (ms : List Lines) (net net' : ℕ → Lines) → self.now.plan.now.shown ≡ M.Measure.model.shows → Ready M.Measure.model (nodes_of self.now.plan.now) (widths_of self.now.plan.now) (S.Stock.meaning self.now.stock.now) (board ms) net net' → self.now.nets.now ≡ flattened 0 ms → OnSheet (length sheet.old) sheet.old 0 [] → Worked M.Measure.model (nodes_of self.now.plan.now) (S.Stock.meaning self.now.stock.now) net' (length sheet.old) sheet.new result }
    {
        let mut used = 0;
        // A number and not an iterator: each node is asked of the plan, of the nets and of the sheet by its number.
        for node in 0..self.plan.len() as u8 {
            used = self.append_node(node, space, sheet, used)?;
        }
        Ok(used)
    }
}

// The change of every node on the sheet, from node 0 upwards, or the first refusal. The stock keeps the old boards; `nets` are the
// movements of all bases, by node and row.
// The parameters stay apart, as a caller would put a `Posting` together for this one call.
pub fn work_out<S: Stock, M: Measure>(
    stock: &S,
    measure: &M,
    plan: &Plan,
    nets: &[ChangeLine],
    space: &mut WorkSpace<M::Value>,
    sheet: &mut [ChangeLine],
    room: usize,
) -> Result<usize, WorkFault>
    ensures long { length sheet.new ≡ length sheet.old }
    ensures worked { (ms : List Lines) (net net' : ℕ → Lines) → plan.now.shown ≡ M.Measure.model.shows → Ready M.Measure.model (nodes_of plan.now) (widths_of plan.now) (S.Stock.meaning stock.now) (board ms) net net' → length (nodes_of plan.now) ≤ length ms → nets.now ≡ flattened 0 ms → OnSheet room sheet.old 0 [] → Worked M.Measure.model (nodes_of plan.now) (S.Stock.meaning stock.now) net' room sheet.new result }
{
    let posting = Posting {
        stock,
        measure,
        plan,
        nets,
    };
    let room = room.min(sheet.len());
    posting.fill(space, &mut sheet[..room])
}
