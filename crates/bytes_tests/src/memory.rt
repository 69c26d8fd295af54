use crate::lender::{leave_nothing, leave_one};
use byte_stock::bytes::ByteStock;
use stock::fault::StockFault;

#[test]
fn new_memory_is_blank(rt: HostRuntime) {
    let mut bytes = [7; 36];
    leave_nothing(&mut bytes);
    assert_eq!(rt; (bytes[0], bytes[34], bytes[35]), (0, 0, 0));
}

#[test]
fn a_line_is_shelf_columns_and_count(rt: HostRuntime) {
    let mut bytes = [7; 36];
    let row = [-2, 258, 0, 0, 0, 0, 0, 65536];
    assert!(rt; leave_one(&mut bytes, 3, &row, 300).is_ok());
    assert_eq!(rt; (bytes[0], bytes[1], bytes[4]), (3, 255, 254));
    assert_eq!(rt; (bytes[5], bytes[6], bytes[7], bytes[8]), (0, 0, 1, 2));
    assert_eq!(rt; (bytes[29], bytes[30], bytes[31], bytes[32]), (0, 1, 0, 0));
    assert_eq!(rt; (bytes[33], bytes[34], bytes[35]), (1, 44, 0));
}

fn three_lines(bytes: &mut [u8]) -> Result<(), StockFault> {
    let mut stock = ByteStock::new(bytes);
    stock.put(1, &[10; 8], 1)?;
    stock.put(2, &[20; 8], 2)?;
    stock.put(3, &[30; 8], 3)?;
    stock.take(1, &[10; 8], 1)
}

#[test]
fn a_freed_line_takes_over_the_last(rt: HostRuntime) {
    let mut bytes = [7; 140];
    assert!(rt; three_lines(&mut bytes).is_ok());
    assert_eq!(rt; (bytes[0], bytes[4], bytes[34]), (3, 30, 3));
    assert_eq!(rt; (bytes[35], bytes[39], bytes[69]), (2, 20, 2));
    assert_eq!(rt; (bytes[70], bytes[74], bytes[104]), (0, 0, 0));
    assert_eq!(rt; (bytes[105], bytes[139]), (0, 0));
}

fn last_line_freed(bytes: &mut [u8]) -> Result<(), StockFault> {
    let mut stock = ByteStock::new(bytes);
    stock.put(1, &[10; 8], 1)?;
    stock.put(2, &[20; 8], 2)?;
    stock.take(2, &[20; 8], 2)
}

#[test]
fn the_last_line_is_blanked_where_it_stands(rt: HostRuntime) {
    let mut bytes = [7; 70];
    assert!(rt; last_line_freed(&mut bytes).is_ok());
    assert_eq!(rt; (bytes[0], bytes[4], bytes[34]), (1, 10, 1));
    assert_eq!(rt; (bytes[35], bytes[39], bytes[69]), (0, 0, 0));
}
