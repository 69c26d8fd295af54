use bag::lines::StockLine;
use ordered_stock::ordered::OrderedStock;
use stock::alike::play_alike;
use stock::call::StockCall;

#[test]
fn stocks_of_unequal_room_are_told_apart_when_one_is_full(rt: HostRuntime) {
    let mut short = [StockLine::blank(); 1];
    let mut long = [StockLine::blank(); 2];
    let mut a = OrderedStock::new(&mut short);
    let mut b = OrderedStock::new(&mut long);
    let first = StockCall::Put {
        shelf: 0,
        row: [1; 8],
        n: 1,
    };
    let second = StockCall::Put {
        shelf: 0,
        row: [2; 8],
        n: 1,
    };
    assert!(rt; play_alike(&mut a, &mut b, &[first, StockCall::Lines]));
    assert!(rt; !play_alike(&mut a, &mut b, &[StockCall::Lines, second]));
}

#[test]
fn equal_stocks_are_found_alike(rt: HostRuntime) {
    let mut one = [StockLine::blank(); 1];
    let mut other = [StockLine::blank(); 1];
    let mut a = OrderedStock::new(&mut one);
    let mut b = OrderedStock::new(&mut other);
    let row = [-7; 8];
    let calls = [
        StockCall::Capacity,
        StockCall::Put {
            shelf: 2,
            row,
            n: 9,
        },
        StockCall::Put {
            shelf: 3,
            row,
            n: 9,
        },
        StockCall::Next {
            shelf: 2,
            row: [-8; 8],
        },
        StockCall::Take {
            shelf: 2,
            row,
            n: 10,
        },
        StockCall::Count { shelf: 2, row },
    ];
    assert!(rt; play_alike(&mut a, &mut b, &calls));
}
