ghost use Rattle.std.specs.Prelude.{◌≡◌, [], length, replicate};
ghost use Rattle.byte_stock.specs.ByteLines.{padded, capacity_in};
ghost use Rattle.byte_stock.specs.ByteStored.{lines_after_put};

use bag::row::Row;
use byte_stock::bytes::ByteStock;
use stock::fault::StockFault;

// Once the stock is gone its lender finds the memory as the last call left it, whatever it held before.
pub(crate) fn leave_nothing(bytes: &mut [u8])
    ensures { bytes.new ≡ replicate (length bytes.old) 0 }
{
    let _stock = ByteStock::new(bytes);
}

pub(crate) fn leave_one(bytes: &mut [u8], shelf: u8, row: &Row, n: u16) -> Result<(), StockFault>
    ensures { bytes.new ≡ padded (length bytes.old) (lines_after_put (capacity_in (length bytes.old)) shelf row.now n []) }
{
    let mut stock = ByteStock::new(bytes);
    stock.put(shelf, row, n)
}
