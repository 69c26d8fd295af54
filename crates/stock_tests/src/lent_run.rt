use bag::lines::StockLine;
use ordered_stock::ordered::OrderedStock;
use stock::fault::StockFault;
use stock::stock::Stock;

#[test]
fn the_lender_finds_the_lines_in_order_and_blanks(rt: HostRuntime) {
    let dirty = StockLine {
        shelf: 3,
        row: [-4; 8],
        count: 5,
    };
    let mut run = [dirty; 3];
    let mut stock = OrderedStock::new(&mut run);
    assert_eq!(rt; stock.put(7, &[-1; 8], 2), Ok(()));
    assert_eq!(rt; stock.put(2, &[9; 8], 1), Ok(()));
    assert_eq!(rt; (run[0].shelf, run[0].row[7], run[0].count), (2, 9, 1));
    assert_eq!(rt; (run[1].shelf, run[1].row[7], run[1].count), (7, -1, 2));
    assert_eq!(rt; (run[2].shelf, run[2].row[7], run[2].count), (0, 0, 0));
}

#[test]
fn a_longer_run_is_blanked_whole_and_used_up_to_4096(rt: HostRuntime) {
    let dirty = StockLine {
        shelf: 3,
        row: [-4; 8],
        count: 5,
    };
    let mut run = [dirty; 4100];
    let mut stock = OrderedStock::new(&mut run);
    assert_eq!(rt; stock.capacity(), 4096);
    for i in 0..4096 {
        assert_eq!(rt; stock.put(0, &[i, 0, 0, 0, 0, 0, 0, 0], 1), Ok(()));
    }
    assert_eq!(rt;
        stock.put(1, &[0; 8], 1),
        Err(StockFault::Room { capacity: 4096 })
    );
    assert_eq!(rt; stock.lines(), 4096);
    assert_eq!(rt; (run[4095].row[0], run[4095].count), (4095, 1));
    assert_eq!(rt;
        (run[4096].shelf, run[4096].row[7], run[4096].count),
        (0, 0, 0)
    );
    assert_eq!(rt;
        (run[4099].shelf, run[4099].row[7], run[4099].count),
        (0, 0, 0)
    );
}
