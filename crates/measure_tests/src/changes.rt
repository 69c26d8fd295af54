use bag::lines::ChangeLine;
use measure::check_mark::CheckMark;
use measure::follow::{value_after, value_over};
use measure::sum::Sum;

fn line(kind: i32, number: i32, change: i32) -> ChangeLine {
    ChangeLine {
        node: 0,
        row: [kind, number, 0, 0, 0, 0, 0, 0],
        change,
    }
}

// 2 copies of 1,500 and 1 of 2,000; then the 2,000 is taken and another 1,500 put.
#[test]
fn kept_from_changes(rt: HostRuntime) {
    let old = [line(3, 1500, 2), line(3, 2000, 1)];
    let change = [line(3, 1500, 1), line(3, 2000, -1)];
    let new = [line(3, 1500, 3)];
    let sum = Sum;
    assert_eq!(rt; value_over(&sum, &old, 1), 5000);
    assert_eq!(rt;
        value_after(&sum, value_over(&sum, &old, 1), &change, 1),
        4500
    );
    assert_eq!(rt; value_over(&sum, &new, 1), 4500);
    let mark = CheckMark;
    assert_eq!(rt;
        value_after(&mark, value_over(&mark, &old, 1), &change, 1),
        value_over(&mark, &new, 1)
    );
    assert_eq!(rt; value_over(&sum, &new, 8), 0);
}
