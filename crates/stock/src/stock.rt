ghost use Rattle.std.specs.Prelude.{◌≡◌, ℕ};
ghost use Rattle.stock.specs.Refusal.{told};
ghost use Rattle.stock.specs.Holding.{Holding, LawfulHolding, copies, lines_of, next_answer, put_answer, after_put, take_answer, after_take};

use crate::fault::StockFault;
use bag::row::Row;

// A store of sixteen bags, on shelves 0 to 15, with room for a fixed number of lines; a line is a row on a shelf with a count above 0.
// Every value of an implementing type holds sixteen bags within their bounds: what an implementation keeps between its calls belongs
// to its type, so that a call promises what it promises of every stock.
pub trait Stock {
    // what the stock holds
    ghost meaning: { Self → Holding };

    // sixteen bags within their bounds; a ghost member and not a law, so that an implementation may have a lifetime
    ghost lawful: { (s : Self) → LawfulHolding (meaning s) };

    // the name of the memory that the stock was lent, so that a lender learns what its memory holds after the calls
    ghost memory: { Self → ℕ };

    // How many lines there is room for.
    fn capacity(&self) -> u16
        ensures answer { result ≡ (meaning self.now).capacity };

    // How many lines are in use.
    fn lines(&self) -> u16
        ensures answer { result ≡ lines_of (meaning self.now) };

    // The count of a row on a shelf.
    fn count(&self, shelf: u8, row: &Row) -> u16
        ensures answer { result ≡ copies (meaning self.now) shelf row.now };

    // The smallest row of a shelf that is greater than `row`, with its count.
    fn next(&self, shelf: u8, row: &Row) -> Option<(Row, u16)>
        ensures answer { result ≡ next_answer (meaning self.now) shelf row.now };

    // Adds n copies of a row to a shelf.
    fn put(&mut self, shelf: u8, row: &Row, n: u16) -> Result<(), StockFault>
        ensures memory { memory self.new ≡ memory self.old }
        ensures answer { told result ≡ put_answer (meaning self.old) shelf row.now n }
        ensures after { meaning self.new ≡ after_put (meaning self.old) shelf row.now n };

    // Removes n copies of a row from a shelf.
    fn take(&mut self, shelf: u8, row: &Row, n: u16) -> Result<(), StockFault>
        ensures memory { memory self.new ≡ memory self.old }
        ensures answer { told result ≡ take_answer (meaning self.old) shelf row.now n }
        ensures after { meaning self.new ≡ after_take (meaning self.old) shelf row.now n };
}
