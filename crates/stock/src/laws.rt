ghost use Rattle.stock.specs.Laws.{StockLaws};

// What puts and takes do to counts, and what they keep, whatever the stock. A theorem is demanded only where a contract names it, so
// this function names it.
pub fn stock_laws()
    ensures { StockLaws }
{}
