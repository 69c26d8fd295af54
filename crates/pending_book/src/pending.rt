ghost use Rattle.std.specs.Prelude.{◌≡◌, ◌≤◌, []};
ghost use Rattle.std.specs.List.{AllByRecursion};
ghost use Rattle.bag.specs.Bag.{count};
ghost use Rattle.stock.specs.Refusal.{told};
ghost use Rattle.stock.specs.Holding.{LawfulHolding, shelf_of, copies, lines_of, next_answer, put_answer, after_put, take_answer, after_take};
ghost use Rattle.pending_lines.specs.PendingLines.{held, count_at};
ghost use Rattle.stock.specs.OneProof.{lawful_holding_prop};
ghost use Rattle.std.proofs.Props.{props};
ghost use Rattle.pending_book.specs.Sums.{sum_of, with_change_of, gain_of, loss_of, Accepts};
ghost use Rattle.pending_book.specs.PendingNext.{IsCandidate, earlier_of};

use bag::lines::ChangeLine;
use bag::row::{Row, compare_rows};
use pending_lines::pending_lines::PendingLines;
use settling::settling::settle;
use stock::columns::read_columns;
use stock::fault::StockFault;
use stock::stock::Stock;

// A stock has sixteen shelves.
const LAST_SHELF: u8 = 15;

// A stock laid over another, which it holds with up to 64 changes that it has not yet passed on. What it means is the sum of both,
// which is what a stock can hold.
#[derive(Drop)]
pub struct PendingBook<S: Stock> {
    below: S,
    pending: PendingLines,
    // how many lines the sum has
    lines: u16,
    pub ghost shelves: { AllByRecursion (λ l. l.node ≤ 15) (held pending) } by { Prim.hlevel props },
    pub ghost lawful: { LawfulHolding (sum_of (S.Stock.meaning below) (held pending)) } by { lawful_holding_prop (sum_of (S.Stock.meaning below) (held pending)) },
    pub ghost counted: { lines ≡ lines_of (sum_of (S.Stock.meaning below) (held pending)) },
}

impl<S: Stock> PendingBook<S> {
    ghost use Rattle.pending_book.specs.PendingBook.{meaning_of, BelowAfter, Settled, Placed, Noted};

    // A book over a stock, with nothing pending.
    pub fn new(stock: S) -> PendingBook<S>
        ensures memory { S.Stock.memory result.below ≡ S.Stock.memory stock }
        ensures same { meaning_of result ≡ S.Stock.meaning stock }
        ensures below { result.below ≡ stock }
        ensures none { held result.pending ≡ [] }
    {
        let lines = stock.lines();
        PendingBook {
            below: stock,
            pending: PendingLines::new(),
            lines,
        }
    }

    // Adds n copies of a row to a shelf, among the pending lines. A change to a 65th line first passes the others on to the stock below.
    pub fn put(&mut self, shelf: u8, row: &Row, n: u16) -> Result<(), StockFault>
        ensures memory { S.Stock.memory self.new.below ≡ S.Stock.memory self.old.below }
        ensures answer { told result ≡ put_answer (meaning_of self.old) shelf row.now n }
        ensures after { meaning_of self.new ≡ after_put (meaning_of self.old) shelf row.now n }
        ensures below { BelowAfter self.old (told result) (gain_of shelf row.now n) self.new }
    {
        read_columns(row);
        if shelf > LAST_SHELF {
            return Err(StockFault::Node { shelf });
        }
        let old = self.sum_at(shelf, row);
        old.checked_add(n).ok_or(StockFault::Over { shelf })?;
        if n == 0 {
            return Ok(());
        }
        let mut lines = self.lines;
        if old == 0 {
            let capacity = self.below.capacity();
            if lines >= capacity {
                return Err(StockFault::Room { capacity });
            }
            lines += 1;
        }
        self.note(&change_line(shelf, row, n as i32), lines);
        Ok(())
    }

    // Removes n copies of a row from a shelf, likewise.
    pub fn take(&mut self, shelf: u8, row: &Row, n: u16) -> Result<(), StockFault>
        ensures memory { S.Stock.memory self.new.below ≡ S.Stock.memory self.old.below }
        ensures answer { told result ≡ take_answer (meaning_of self.old) shelf row.now n }
        ensures after { meaning_of self.new ≡ after_take (meaning_of self.old) shelf row.now n }
        ensures below { BelowAfter self.old (told result) (loss_of shelf row.now n) self.new }
    {
        read_columns(row);
        if shelf > LAST_SHELF {
            return Err(StockFault::Node { shelf });
        }
        let left = self
            .sum_at(shelf, row)
            .checked_sub(n)
            .ok_or(StockFault::Short { shelf })?;
        if n == 0 {
            return Ok(());
        }
        let used = self.lines;
        let lines = if left == 0 { used - 1 } else { used };
        self.note(&change_line(shelf, row, -(n as i32)), lines);
        Ok(())
    }

    // The count of a row in the sum.
    fn sum_at(&self, shelf: u8, row: &Row) -> u16
        ensures { result ≡ copies (meaning_of self.now) shelf row.now }
    {
        if shelf > LAST_SHELF {
            return 0;
        }
        let below = self.below.count(shelf, row);
        self.pending.added_to(shelf, row, below)
    }

    // Passes all pending changes on to the stock below, takes before puts, so that a full stock has room.
    fn settle(&mut self)
        ensures memory { S.Stock.memory self.new.below ≡ S.Stock.memory self.old.below }
        ensures after { Settled self.old self.new }
    {
        settle(&mut self.below, self.pending.entries());
        self.pending = PendingLines::new();
    }

    // A 65th line wants the others passed on first.
    fn make_place(&mut self, line: &ChangeLine)
        ensures memory { S.Stock.memory self.new.below ≡ S.Stock.memory self.old.below }
        ensures after { Placed self.old line.now self.new }
    {
        if self.pending.lacks_place(line) {
            self.settle();
        }
    }

    // Adds a change to the sum, which then has `lines` lines. The list's answer is no news: there is a place for the line.
    fn note(&mut self, line: &ChangeLine, lines: u16)
        requires accepted { Accepts (meaning_of self.old) line.now }
        requires counted { lines ≡ lines_of (with_change_of (meaning_of self.old) line.now) }
        ensures memory { S.Stock.memory self.new.below ≡ S.Stock.memory self.old.below }
        ensures after { Noted self.old line.now self.new }
    {
        self.make_place(line);
        let _ = self.pending.add(line);
        self.lines = lines;
    }

    // The smallest row of the sum on a shelf that is greater than `row`. A row found below or among the pending lines may have no copies
    // in the sum; then a pending line cancels it, so at most 64 are passed over.
    fn next_of_sum(&self, shelf: u8, row: &Row) -> Option<(Row, u16)>
        ensures answer { result ≡ next_answer (meaning_of self.now) shelf row.now }
    {
        if shelf > LAST_SHELF {
            return None;
        }
        let mut at = *row;
        // Each turn leaves a pending line behind, so 64 pending lines end it at the 65th turn.
        for _turn in 0..65usize {
            let found = self.candidate(shelf, &at)?;
            let n = self.sum_at(shelf, &found);
            if n > 0 {
                return Some((found, n));
            }
            at = found;
        }
        None
    }

    // The smallest row greater than `row` that is on the shelf below or has a pending line there.
    fn candidate(&self, shelf: u8, row: &Row) -> Option<Row>
        ensures answer { shelf ≤ 15 → IsCandidate (λ q. count (shelf_of (S.Stock.meaning self.now.below) shelf) q) (λ q. count_at self.now.pending shelf q) row.now result }
    {
        let below = self.below.next(shelf, row);
        let pending = self.pending.next_row(shelf, row);
        earlier(below, pending)
    }
}

// The smaller of two rows, where there are two.
fn earlier(below: Option<(Row, u16)>, pending: Option<(Row, i32)>) -> Option<Row>
    ensures { result ≡ earlier_of below pending }
{
    let pending = pending.map(row_of);
    let Some(a) = below.map(row_of) else {
        return pending;
    };
    let Some(b) = pending else {
        return Some(a);
    };
    Some(if compare_rows(&b, &a).is_lt() { b } else { a })
}

// The row that a number stands with.
fn row_of<N: Copy>(line: (Row, N)) -> Row
    ensures { result ≡ line.0 }
{
    line.0
}

// What changes a row on a shelf by some copies.
fn change_line(shelf: u8, row: &Row, change: i32) -> ChangeLine
    ensures { result ≡ record { node = shelf; row = row.now; change = change } }
{
    ChangeLine {
        node: shelf,
        row: *row,
        change,
    }
}

// The trait cannot say what becomes of the stock below, so its calls are those of the book itself, which say it.
impl<S: Stock> Stock for PendingBook<S> {
    ghost use Rattle.pending_book.specs.PendingBook.{meaning_of};

    ghost meaning = { λ b. meaning_of b };

    ghost lawful = { λ b. b.lawful };

    ghost memory = { λ b. S.Stock.memory b.below };

    fn capacity(&self) -> u16 {
        self.below.capacity()
    }

    fn lines(&self) -> u16 {
        self.lines
    }

    fn count(&self, shelf: u8, row: &Row) -> u16 {
        self.sum_at(shelf, row)
    }

    fn next(&self, shelf: u8, row: &Row) -> Option<(Row, u16)> {
        self.next_of_sum(shelf, row)
    }

    fn put(&mut self, shelf: u8, row: &Row, n: u16) -> Result<(), StockFault> {
        self.put(shelf, row, n)
    }

    fn take(&mut self, shelf: u8, row: &Row, n: u16) -> Result<(), StockFault> {
        self.take(shelf, row, n)
    }
}
