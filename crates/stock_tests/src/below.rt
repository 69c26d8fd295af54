ghost use Rattle.std.specs.Prelude.{◌≡◌};

use bag::row::Row;
use pending_book::pending::PendingBook;
use stock::stock::Stock;

// A book that one put was made on still holds the very stock that it was made over, whatever the put was answered: its holder learns
// that from the contract alone.
pub(crate) fn book_of_one<S: Stock>(stock: S, shelf: u8, row: &Row, n: u16) -> PendingBook<S>
    ensures { result.below ≡ stock }
{
    let mut book = PendingBook::new(stock);
    let _ = book.put(shelf, row, n);
    book
}
