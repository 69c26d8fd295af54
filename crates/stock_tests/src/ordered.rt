use bag::lines::StockLine;
use bag::row::Row;
use ordered_stock::ordered::OrderedStock;
use std::test::Fail;
use stock::fault::StockFault;
use stock::stock::Stock;

fn row(column: i32) -> Row {
    [column, 0, 0, 0, 0, 0, 0, 0]
}

fn line(column: i32) -> StockLine {
    StockLine {
        shelf: 9,
        row: row(column),
        count: 9,
    }
}

#[test]
fn a_full_stock_swaps_a_line(rt: HostRuntime) {
    let mut run = [line(9); 2];
    let mut stock = OrderedStock::new(&mut run);
    assert_eq!(rt; stock.put(3, &row(5), 2), Ok(()));
    assert_eq!(rt; stock.put(0, &row(7), 1), Ok(()));
    assert_eq!(rt;
        stock.put(0, &row(8), 1),
        Err(StockFault::Room { capacity: 2 })
    );
    assert_eq!(rt; stock.put(0, &row(7), 1), Ok(()));
    assert_eq!(rt; stock.take(0, &row(7), 2), Ok(()));
    assert_eq!(rt; stock.lines(), 1);
    assert_eq!(rt; stock.put(0, &row(8), 1), Ok(()));
    assert_eq!(rt; stock.count(0, &row(7)), 0);
    assert_eq!(rt; stock.count(0, &row(8)), 1);
    assert_eq!(rt; stock.count(3, &row(5)), 2);
    assert_eq!(rt; stock.lines(), 2);
}

#[test]
fn there_is_no_shelf_sixteen(rt: HostRuntime) {
    let mut run = [line(9); 2];
    let mut stock = OrderedStock::new(&mut run);
    let refused = Err(StockFault::Node { shelf: 16 });
    assert_eq!(rt; stock.put(16, &row(1), 1), refused);
    assert_eq!(rt; stock.put(16, &row(1), 0), refused);
    assert_eq!(rt; stock.take(16, &row(1), 0), refused);
    assert_eq!(rt; stock.put(15, &row(1), 1), Ok(()));
    assert_eq!(rt; stock.count(16, &row(1)), 0);
    assert!(rt; stock.next(16, &row(0)).is_none());
    assert!(rt; stock.next(14, &row(0)).is_none());
    assert_eq!(rt; stock.lines(), 1);
}

#[test]
fn a_stock_of_no_room_is_lawful(rt: HostRuntime) {
    let mut run: [StockLine; 0] = [];
    let mut stock = OrderedStock::new(&mut run);
    assert_eq!(rt; stock.capacity(), 0);
    assert_eq!(rt; stock.put(0, &row(1), 0), Ok(()));
    assert_eq!(rt;
        stock.put(0, &row(1), 1),
        Err(StockFault::Room { capacity: 0 })
    );
    assert_eq!(rt; stock.take(0, &row(1), 0), Ok(()));
    assert_eq!(rt;
        stock.take(0, &row(1), 1),
        Err(StockFault::Short { shelf: 0 })
    );
    assert_eq!(rt; stock.lines(), 0);
}

#[test]
fn no_copies_change_nothing(rt: HostRuntime) {
    let mut run = [line(9); 1];
    let mut stock = OrderedStock::new(&mut run);
    assert_eq!(rt; stock.put(0, &row(1), 0), Ok(()));
    assert_eq!(rt; stock.lines(), 0);
    assert_eq!(rt; stock.put(0, &row(1), 65535), Ok(()));
    assert_eq!(rt; stock.put(0, &row(1), 0), Ok(()));
    assert_eq!(rt; stock.put(0, &row(2), 0), Ok(()));
    assert_eq!(rt; stock.take(0, &row(1), 0), Ok(()));
    assert_eq!(rt; stock.count(0, &row(1)), 65535);
}

#[test]
fn over_comes_before_room_and_says_its_number_and_place(rt: HostRuntime) {
    let mut run = [line(9); 1];
    let mut stock = OrderedStock::new(&mut run);
    assert_eq!(rt; stock.put(4, &row(1), 65535), Ok(()));
    let over = StockFault::Over { shelf: 4 };
    assert_eq!(rt; stock.put(4, &row(1), 1), Err(over));
    assert_eq!(rt; (over.number(), over.place()), (6, 4));
    let room = StockFault::Room { capacity: 1 };
    assert_eq!(rt; stock.put(4, &row(2), 65535), Err(room));
    assert_eq!(rt; (room.number(), room.place()), (9, 1));
    let short = StockFault::Short { shelf: 4 };
    assert_eq!(rt; stock.take(4, &row(2), 1), Err(short));
    assert_eq!(rt; (short.number(), short.place()), (5, 4));
    assert_eq!(rt; StockFault::Node { shelf: 255 }.number(), 14);
}

#[test]
fn next_steps_through_a_shelf_and_not_beyond(rt: HostRuntime) -> Result<(), Fail> {
    let lowest = [i32::MIN; 8];
    let mut run = [line(9); 4];
    let mut stock = OrderedStock::new(&mut run);
    assert_eq!(rt; stock.put(1, &lowest, 3), Ok(()));
    assert_eq!(rt; stock.put(1, &row(5), 1), Ok(()));
    assert_eq!(rt; stock.put(2, &row(6), 1), Ok(()));
    assert_eq!(rt; stock.count(1, &lowest), 3);
    let (after, count) = stock.next(1, &lowest).ok_or("no row after the lowest")?;
    assert_eq!(rt; (after[0], count), (5, 1));
    assert!(rt; stock.next(1, &after).is_none());
    let (first, count) = stock.next(2, &lowest).ok_or("no row on shelf 2")?;
    assert_eq!(rt; (first[0], count), (6, 1));
    Ok(())
}
