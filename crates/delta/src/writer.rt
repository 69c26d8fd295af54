ghost use Rattle.bag.specs.declared.lines.ChangeLine.{ChangeLine};
ghost use Rattle.std.specs.Prelude.{◌≡◌, ℕ, not, List, [], ◌∷◌, ◌++◌, length, replicate, ◌+ℤ◌};
ghost use Rattle.bag.specs.Bag.{Lines, count, with_line};
ghost use Rattle.bag.specs.Lines.{blank_change_line};
ghost use Rattle.stock.specs.Holding.{shelf_of};
ghost use Rattle.sheet.specs.Sheets.{of_node, OnPage};
ghost use Rattle.delta.specs.NodeChange.{within_count};
ghost use Rattle.delta.specs.Writing.{SameTask, Written, Wrote, without_zeros, write_answer, up_to_over};

use crate::fault::NodeFault;
use bag::lines::ChangeLine;
use bag::row::Row;
use stock::stock::Stock;

// The change of one node while its lines are written, one behind the other, on the part of a sheet that is left for it.
#[derive(Drop)]
pub struct ChangeWriter<'a, S> {
    // the old bags
    stock: &'a S,
    node: u8,
    page: &'a mut [ChangeLine],
    // how many lines stand on the page; none once a line found no place there
    lines: Option<usize>,
}

// Whether a change brings a row of a node to a count that no line of a stock can have.
fn is_over<S: Stock>(stock: &S, node: u8, row: &Row, change: i32) -> bool
    ensures { result ≡ not (within_count (count (shelf_of (S.Stock.meaning stock.now) node) row.now +ℤ change)) }
{
    stock.count(node, row) as i64 + change as i64 > 65535
}

impl<'a, S: Stock> ChangeWriter<'a, S> {
    // A writer that has written nothing, on a blank page.
    pub fn new(stock: &'a S, node: u8, page: &'a mut [ChangeLine]) -> ChangeWriter<'a, S>
        ensures lender { result.page.ghost_name ≡ page.entry.ghost_name }
        ensures stock { result.stock.now ≡ stock.now }
        ensures node { result.node ≡ node }
        ensures page { result.page.now ≡ page.old }
        ensures none { page.old ≡ replicate (length page.old) blank_change_line → Written S.Stock.meaning result [] }
    {
        ChangeWriter {
            stock,
            node,
            page,
            lines: Some(0),
        }
    }

    // The old bags.
    pub fn stock(&self) -> &'a S
        ensures { result.now ≡ self.now.stock.now }
    {
        self.stock
    }

    // The node whose change is written.
    pub fn node(&self) -> u8
        ensures { result ≡ self.now.node }
    {
        self.node
    }

    // How many lines stand on the page, or none if some line found no place there.
    pub fn lines(&self) -> Option<usize>
        ensures { result ≡ self.now.lines }
    {
        let ChangeWriter { lines, .. } = self;
        *lines
    }

    // Writes the change of a row, unless it is 0. A page without a place for it ends no change: a row with too many copies comes first.
    // The line of such a row is written too, so one rule says what stands on the page, whatever the answer.
    pub fn append(&mut self, row: &Row, change: i32) -> Result<(), NodeFault>
        ensures same { SameTask self.old self.new }
        ensures on_page { (es : List ChangeLine) → OnPage self.old.page.now self.old.lines es → OnPage self.new.page.now self.new.lines (es ++ of_node self.old.node (with_line row.now change [])) }
        ensures answer { result ≡ write_answer (shelf_of (S.Stock.meaning self.old.stock.now) self.old.node) (with_line row.now change []) }
        ensures after { (d : Lines) → Written S.Stock.meaning self.old d → Wrote S.Stock.meaning self.old self.new (d ++ with_line row.now change []) result }
    {
        if change == 0 {
            return Ok(());
        }
        let over = is_over(self.stock, self.node, row, change);
        let line = ChangeLine {
            node: self.node,
            row: *row,
            change,
        };
        self.put(line);
        if over {
            return Err(NodeFault::Over);
        }
        Ok(())
    }

    // Writes the changes of rows one by one, behind what is written, but none that is 0. The first row with too many copies ends it, when
    // its line is written.
    pub fn append_all(&mut self, lines: &[ChangeLine]) -> Result<(), NodeFault>
        ensures same { SameTask self.old self.new }
        ensures on_page { (es : List ChangeLine) (c : ℕ) (xs : Lines) → lines.now ≡ of_node c xs → OnPage self.old.page.now self.old.lines es → OnPage self.new.page.now self.new.lines (es ++ of_node self.old.node (up_to_over (shelf_of (S.Stock.meaning self.old.stock.now) self.old.node) xs)) }
        ensures answer { (c : ℕ) (xs : Lines) → lines.now ≡ of_node c xs → result ≡ write_answer (shelf_of (S.Stock.meaning self.old.stock.now) self.old.node) (without_zeros xs) }
        ensures after { (c : ℕ) (d xs : Lines) → lines.now ≡ of_node c xs → Written S.Stock.meaning self.old d → Wrote S.Stock.meaning self.old self.new (d ++ without_zeros xs) result }
    {
        for line in lines {
            self.append(&line.row, line.change)?;
        }
        Ok(())
    }

    // Puts a line on the page, behind those that stand there.
    fn put(&mut self, line: ChangeLine)
        ensures same { SameTask self.old self.new }
        ensures after { (es : List ChangeLine) → OnPage self.old.page.now self.old.lines es → OnPage self.new.page.now self.new.lines (es ++ line ∷ []) }
    {
        let Some(used) = self.lines else {
            return;
        };
        if used < self.page.len() {
            self.page[used] = line;
            self.lines = Some(used + 1);
        } else {
            self.lines = None;
        }
    }
}
