use crate::below::book_of_one;
use bag::lines::StockLine;
use bag::row::Row;
use byte_stock::bytes::ByteStock;
use ordered_stock::ordered::OrderedStock;
use pending_book::pending::PendingBook;
use std::process::Abort;
use std::test::Fail;
use stock::fault::StockFault;
use stock::stock::Stock;

fn row(column: i32) -> Row {
    [column, 0, 0, 0, 0, 0, 0, 0]
}

// The number and the place of a refusal, or 0 and 0.
fn refusal(answer: Result<(), StockFault>) -> (u8, u16) {
    match answer {
        Ok(()) => (0, 0),
        Err(fault) => (fault.number(), fault.place()),
    }
}

// Puts one copy of each of n rows on shelf 2.
fn put_rows<S: Stock>(rt: &impl Abort, book: &mut PendingBook<S>, n: i32) {
    for i in 0..n {
        assert_eq!(rt; refusal(book.put(2, &row(i), 1)), (0, 0));
    }
}

// With 64 lines pending one leaves, since it is taken again, and its place goes to another.
fn net_one<S: Stock>(rt: &impl Abort, book: &mut PendingBook<S>) {
    put_rows(rt, book, 64);
    assert_eq!(rt; refusal(book.take(2, &row(3), 1)), (0, 0));
    assert_eq!(rt; refusal(book.put(2, &row(90), 1)), (0, 0));
    assert_eq!(rt; (book.count(2, &row(3)), book.count(2, &row(90))), (0, 1));
    assert_eq!(rt; book.lines(), 64);
}

// A full book of 65 lines swaps 32 of them, line by line. The last put settles, and below there is room for it only after the takes.
fn swap_lines<S: Stock>(rt: &impl Abort, book: &mut PendingBook<S>) -> Result<(), Fail> {
    put_rows(rt, book, 65);
    assert_eq!(rt; refusal(book.put(2, &row(100), 1)), (9, 65));
    for i in 0..32 {
        assert_eq!(rt; refusal(book.take(2, &row(i), 1)), (0, 0));
        assert_eq!(rt; refusal(book.put(2, &row(100 + i), 1)), (0, 0));
    }
    assert_eq!(rt; (book.lines(), book.capacity()), (65, 65));
    assert_eq!(rt; (book.count(2, &row(31)), book.count(2, &row(131))), (0, 1));
    let (first, count) = book.next(2, &row(-1)).ok_or("no row on shelf 2")?;
    assert_eq!(rt; (first[0], count), (32, 1));
    Ok(())
}

// What a book refuses, over a stock of one line; room goes by the sum, for below there is no line yet.
fn refuse<S: Stock>(rt: &impl Abort, book: &mut PendingBook<S>) {
    assert_eq!(rt; refusal(book.put(16, &row(1), 1)), (14, 16));
    assert_eq!(rt; refusal(book.take(16, &row(1), 0)), (14, 16));
    assert_eq!(rt; book.count(16, &row(1)), 0);
    assert!(rt; book.next(16, &row(0)).is_none());
    assert_eq!(rt; refusal(book.put(15, &row(1), 2)), (0, 0));
    assert_eq!(rt; refusal(book.put(15, &row(2), 1)), (9, 1));
    assert_eq!(rt; refusal(book.put(15, &row(1), 65534)), (6, 15));
    assert_eq!(rt; refusal(book.take(15, &row(1), 3)), (5, 15));
    assert_eq!(rt; refusal(book.take(15, &row(1), 2)), (0, 0));
    assert_eq!(rt; refusal(book.put(15, &row(2), 1)), (0, 0));
    assert_eq!(rt; book.lines(), 1);
}

// What a book over a stock of no room refuses.
fn find_no_room<S: Stock>(rt: &impl Abort, book: &mut PendingBook<S>) {
    assert_eq!(rt; refusal(book.put(0, &row(1), 0)), (0, 0));
    assert_eq!(rt; refusal(book.put(0, &row(1), 1)), (9, 0));
    assert_eq!(rt; refusal(book.take(0, &row(1), 1)), (5, 0));
    assert_eq!(rt; (book.lines(), book.capacity()), (0, 0));
}

#[test]
fn below_an_ordered_stock_is_left_alone_until_a_65th_line(rt: HostRuntime) {
    let mut run = [StockLine::blank(); 70];
    let mut book = PendingBook::new(OrderedStock::new(&mut run));
    put_rows(&rt, &mut book, 64);
    assert_eq!(rt; book.lines(), 64);
    assert_eq!(rt; run[0].count, 0);
    let mut book = PendingBook::new(OrderedStock::new(&mut run));
    put_rows(&rt, &mut book, 65);
    assert_eq!(rt; book.lines(), 65);
    assert_eq!(rt; (run[0].count, run[63].count, run[64].count), (1, 1, 0));
    let mut book = PendingBook::new(OrderedStock::new(&mut run));
    net_one(&rt, &mut book);
    assert_eq!(rt; run[0].count, 0);
}

#[test]
fn below_a_byte_stock_is_left_alone_until_a_65th_line(rt: HostRuntime) {
    let mut bytes = [7; 2450];
    let mut book = PendingBook::new(ByteStock::new(&mut bytes));
    put_rows(&rt, &mut book, 64);
    assert_eq!(rt; bytes[34], 0);
    let mut book = PendingBook::new(ByteStock::new(&mut bytes));
    put_rows(&rt, &mut book, 65);
    assert_eq!(rt; (bytes[34], bytes[2239], bytes[2274]), (1, 1, 0));
    let mut book = PendingBook::new(ByteStock::new(&mut bytes));
    net_one(&rt, &mut book);
    assert_eq!(rt; bytes[34], 0);
}

#[test]
fn a_full_book_swaps_lines_across_a_settling(rt: HostRuntime) -> Result<(), Fail> {
    let mut run = [StockLine::blank(); 65];
    swap_lines(&rt, &mut PendingBook::new(OrderedStock::new(&mut run)))?;
    assert_eq!(rt;
        (run[0].row[0], run[63].row[0], run[64].count),
        (32, 130, 0)
    );
    let mut bytes = [7; 2275];
    swap_lines(&rt, &mut PendingBook::new(ByteStock::new(&mut bytes)))?;
    assert_eq!(rt; (bytes[2239], bytes[2274]), (1, 0));
    Ok(())
}

#[test]
fn one_put_stays_in_the_book(rt: HostRuntime) {
    let mut run = [StockLine::blank(); 2];
    let book = book_of_one(OrderedStock::new(&mut run), 3, &row(4), 5);
    assert_eq!(rt; book.count(3, &row(4)), 5);
    assert_eq!(rt; run[0].count, 0);
}

#[test]
fn a_book_refuses_as_the_sum_does(rt: HostRuntime) {
    let mut run = [StockLine::blank(); 1];
    refuse(&rt, &mut PendingBook::new(OrderedStock::new(&mut run)));
    let mut bytes = [7; 35];
    refuse(&rt, &mut PendingBook::new(ByteStock::new(&mut bytes)));
}

#[test]
fn over_a_stock_of_no_room_nothing_can_be_put(rt: HostRuntime) {
    let mut run: [StockLine; 0] = [];
    find_no_room(&rt, &mut PendingBook::new(OrderedStock::new(&mut run)));
    let mut bytes = [7; 34];
    find_no_room(&rt, &mut PendingBook::new(ByteStock::new(&mut bytes)));
}
