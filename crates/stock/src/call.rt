use bag::row::Row;

// One call on a stock.
#[derive(Clone, Copy)]
pub enum StockCall {
    Capacity,
    Lines,
    Count { shelf: u8, row: Row },
    Next { shelf: u8, row: Row },
    Put { shelf: u8, row: Row, n: u16 },
    Take { shelf: u8, row: Row, n: u16 },
}
