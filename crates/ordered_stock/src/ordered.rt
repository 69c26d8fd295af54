ghost use Rattle.std.specs.Prelude.{◌≡◌, ◌≤◌, min, length, replicate};
ghost use Rattle.std.specs.List.{AllByRecursion};
ghost use Rattle.std.proofs.Props.{props};
ghost use Rattle.bag.specs.Lines.{blank_stock_line};
ghost use Rattle.table.specs.Tables.{items, capacity};
ghost use Rattle.stock.specs.Holding.{LawfulLine, LawfulHolding};
ghost use Rattle.stock.specs.OneProof.{lawful_holding_prop};
ghost use Rattle.ordered_stock.specs.OnTable.{held_in, run_of};

use bag::lines::StockLine;
use bag::row::Row;
use stock::columns::read_columns;
use stock::fault::StockFault;
use stock::stock::Stock;
use table::table::Table;

// A stock has sixteen shelves.
const LAST_SHELF: u8 = 15;

// A stock has room for so many lines at most, so that their number is a `u16`.
const MOST_LINES: usize = 4096;

// A stock on an ordered table in a lent run: the lines by shelf and row, and blanks behind them. Of a longer run only as many
// places are used as a stock can have lines.
#[derive(Drop)]
pub struct OrderedStock<'a> {
    table: Table<'a, StockLine>,
    pub ghost lines: { AllByRecursion LawfulLine (items table) } by { Prim.hlevel props },
    pub ghost holding: { LawfulHolding (held_in table) } by { lawful_holding_prop (held_in table) },
    pub ghost run: { table.run.now ≡ run_of (capacity table) (held_in table) },
}

impl<'a> OrderedStock<'a> {
    ghost use Rattle.bag.specs.Order.{stock_line_order};
    ghost use Rattle.table.specs.Entries.{entry_of};
    ghost use Rattle.stock.specs.Holding.{empty_holding};
    ghost use Rattle.ordered_stock.specs.Ordered.{held};

    // An empty stock over `run`, whatever the run held.
    pub fn new(run: &'a mut [StockLine]) -> OrderedStock<'a>
        ensures lender { result.table.run.ghost_name ≡ run.entry.ghost_name }
        ensures empty { held result ≡ empty_holding (min (length run.old) 4096) }
        ensures blank { result.table.run.now ≡ replicate (length run.old) blank_stock_line }
    {
        OrderedStock {
            table: Table::new(run),
        }
    }

    // The line of a row on a shelf, if there is one.
    fn line(&self, shelf: u8, row: &Row) -> Option<StockLine>
        ensures { result ≡ entry_of stock_line_order (record { shelf = shelf; row = row.now; count = 0 }) (items self.now.table) }
    {
        let place = self.table.find(&key(shelf, row))?;
        self.table.get(place)
    }
}

// What is looked up for a row on a shelf: a line's count is no part of its key.
fn key(shelf: u8, row: &Row) -> StockLine
    ensures { result ≡ record { shelf = shelf; row = row.now; count = 0 } }
{
    StockLine {
        shelf,
        row: *row,
        count: 0,
    }
}

impl<'a> Stock for OrderedStock<'a> {
    ghost use Rattle.ordered_stock.specs.Ordered.{held, lent_run};

    ghost meaning = { held };

    ghost lawful = { λ s. s.holding };

    ghost memory = { lent_run };

    fn capacity(&self) -> u16 {
        self.table.capacity().min(MOST_LINES) as u16
    }

    fn lines(&self) -> u16 {
        self.table.len().min(MOST_LINES) as u16
    }

    fn count(&self, shelf: u8, row: &Row) -> u16 {
        if shelf > LAST_SHELF {
            return 0;
        }
        self.line(shelf, row).map_or(0, |line| line.count)
    }

    fn next(&self, shelf: u8, row: &Row) -> Option<(Row, u16)> {
        if shelf > LAST_SHELF {
            return None;
        }
        let line = self.table.after(&key(shelf, row))?;
        if line.shelf != shelf {
            return None;
        }
        let after = line.row;
        Some((after, line.count))
    }

    fn put(&mut self, shelf: u8, row: &Row, n: u16) -> Result<(), StockFault> {
        if shelf > LAST_SHELF {
            return Err(StockFault::Node { shelf });
        }
        let count = self.count(shelf, row);
        let sum = count.checked_add(n).ok_or(StockFault::Over { shelf })?;
        if n == 0 {
            return Ok(());
        }
        let capacity = self.capacity();
        if count == 0 && self.lines() == capacity {
            return Err(StockFault::Room { capacity });
        }
        read_columns(row);
        let line = StockLine {
            shelf,
            row: *row,
            count: sum,
        };
        // never refused: the row has a line already, or there are fewer lines than places
        self.table
            .add(line)
            .map_err(|_| StockFault::Room { capacity })
    }

    fn take(&mut self, shelf: u8, row: &Row, n: u16) -> Result<(), StockFault> {
        if shelf > LAST_SHELF {
            return Err(StockFault::Node { shelf });
        }
        let count = self.count(shelf, row);
        let left = count.checked_sub(n).ok_or(StockFault::Short { shelf })?;
        if n == 0 {
            return Ok(());
        }
        let line = StockLine {
            shelf,
            row: *row,
            count: left,
        };
        if left == 0 {
            self.table.remove(&line);
            return Ok(());
        }
        read_columns(row);
        // never refused: the row has a line already
        self.table
            .add(line)
            .map_err(|_| StockFault::Short { shelf })
    }
}
