use bag::row::Row;
use byte_stock::bytes::ByteStock;
use stock::fault::StockFault;
use stock::stock::Stock;

// The number and the place of a refusal, or 0 and 0.
fn refusal(answer: Result<(), StockFault>) -> (u8, u16) {
    match answer {
        Ok(()) => (0, 0),
        Err(fault) => (fault.number(), fault.place()),
    }
}

fn next_first<S: Stock>(stock: &S, shelf: u8, row: &Row) -> (i32, u16) {
    match stock.next(shelf, row) {
        Some(found) => {
            let row = found.0;
            (row[0], found.1)
        }
        None => (0, 0),
    }
}

#[test]
fn a_full_stock_swaps_a_line(rt: HostRuntime) {
    let mut bytes = [7; 70];
    let mut stock = ByteStock::new(&mut bytes);
    assert_eq!(rt; refusal(stock.put(0, &[1; 8], 5)), (0, 0));
    assert_eq!(rt; refusal(stock.put(15, &[1; 8], 6)), (0, 0));
    assert_eq!(rt; refusal(stock.put(0, &[2; 8], 1)), (9, 2));
    assert_eq!(rt; refusal(stock.put(0, &[1; 8], 1)), (0, 0));
    assert_eq!(rt; refusal(stock.take(0, &[1; 8], 6)), (0, 0));
    assert_eq!(rt; refusal(stock.put(0, &[2; 8], 1)), (0, 0));
    assert_eq!(rt;
        (
            stock.count(0, &[1; 8]),
            stock.count(0, &[2; 8]),
            stock.count(15, &[1; 8]),
        ),
        (0, 1, 6)
    );
    assert_eq!(rt; (stock.lines(), stock.capacity()), (2, 2));
}

#[test]
fn there_is_no_shelf_16(rt: HostRuntime) {
    let mut bytes = [7; 70];
    let mut stock = ByteStock::new(&mut bytes);
    assert_eq!(rt; refusal(stock.put(16, &[1; 8], 1)), (14, 16));
    assert_eq!(rt; refusal(stock.take(16, &[1; 8], 0)), (14, 16));
    assert_eq!(rt; (stock.count(16, &[1; 8]), stock.lines()), (0, 0));
    assert!(rt; stock.next(16, &[-1; 8]).is_none());
}

#[test]
fn without_memory_there_is_no_room(rt: HostRuntime) {
    let mut bytes = [7; 0];
    let mut stock = ByteStock::new(&mut bytes);
    assert_eq!(rt; stock.capacity(), 0);
    assert_eq!(rt; refusal(stock.put(0, &[1; 8], 1)), (9, 0));
    assert_eq!(rt; refusal(stock.put(0, &[1; 8], 0)), (0, 0));
    assert_eq!(rt; refusal(stock.take(0, &[1; 8], 1)), (5, 0));
}

#[test]
fn a_part_of_a_line_is_no_room(rt: HostRuntime) {
    let mut bytes = [7; 34];
    let mut stock = ByteStock::new(&mut bytes);
    assert_eq!(rt; stock.capacity(), 0);
    assert_eq!(rt; refusal(stock.put(0, &[1; 8], 1)), (9, 0));
}

#[test]
fn a_count_ends_at_65535(rt: HostRuntime) {
    let mut bytes = [7; 35];
    let mut stock = ByteStock::new(&mut bytes);
    assert_eq!(rt; refusal(stock.put(4, &[1; 8], 65535)), (0, 0));
    assert_eq!(rt; refusal(stock.put(4, &[1; 8], 1)), (6, 4));
    assert_eq!(rt; refusal(stock.take(4, &[1; 8], 65534)), (0, 0));
    assert_eq!(rt; refusal(stock.take(4, &[1; 8], 2)), (5, 4));
    assert_eq!(rt; stock.count(4, &[1; 8]), 1);
}

#[test]
fn next_goes_by_the_order_of_rows(rt: HostRuntime) {
    let mut bytes = [7; 175];
    let mut stock = ByteStock::new(&mut bytes);
    assert_eq!(rt; refusal(stock.put(2, &[30; 8], 3)), (0, 0));
    assert_eq!(rt; refusal(stock.put(2, &[-10; 8], 1)), (0, 0));
    assert_eq!(rt; refusal(stock.put(3, &[15; 8], 9)), (0, 0));
    assert_eq!(rt; refusal(stock.put(2, &[20; 8], 2)), (0, 0));
    assert_eq!(rt; next_first(&stock, 2, &[-11; 8]), (-10, 1));
    assert_eq!(rt; next_first(&stock, 2, &[-10; 8]), (20, 2));
    assert_eq!(rt; next_first(&stock, 2, &[20; 8]), (30, 3));
    assert_eq!(rt; next_first(&stock, 2, &[30; 8]), (0, 0));
}
