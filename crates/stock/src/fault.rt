ghost use Rattle.std.specs.Prelude.{◌≡◌};
ghost use Rattle.stock.specs.Refusal.{stock_refusal};

// Why a stock refuses a put or a take.
#[derive(Clone, Copy, PartialEq, Eq, Debug)]
pub enum StockFault {
    // There is no such shelf.
    Node { shelf: u8 },
    // The row would have more copies than a line can count.
    Over { shelf: u8 },
    // The row is absent, and every line that there is room for is in use.
    Room { capacity: u16 },
    // The row has fewer copies than are to be taken.
    Short { shelf: u8 },
}

impl StockFault {
    pub fn number(&self) -> u8
        ensures { result ≡ (stock_refusal self.now).number }
    {
        match self {
            StockFault::Node { shelf: _ } => 14,
            StockFault::Over { shelf: _ } => 6,
            StockFault::Room { capacity: _ } => 9,
            StockFault::Short { shelf: _ } => 5,
        }
    }

    pub fn place(&self) -> u16
        ensures { result ≡ (stock_refusal self.now).place }
    {
        match self {
            StockFault::Node { shelf } => *shelf as u16,
            StockFault::Over { shelf } => *shelf as u16,
            StockFault::Room { capacity } => *capacity,
            StockFault::Short { shelf } => *shelf as u16,
        }
    }
}
