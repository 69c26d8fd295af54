use bag::row::Row;
use measure::check_mark::CheckMark;
use measure::head_count::HeadCount;
use measure::measure::Measure;
use measure::round_trip::read_again;
use measure::sum::Sum;

// What a measure shows of so many copies of a number.
fn shown<M: Measure>(measure: &M, number: i32, copies: i64) -> Option<Row> {
    measure.show(measure.worth(number, copies))
}

#[test]
fn marks(rt: HostRuntime) {
    let cases = [
        (70000, 1, [1, 4464, 0, 0, 0, 0, 0, 0]),
        (70000, -3, [1, 4464, 0, 0, 0, 0, 0, 0]),
        (5, 2, [0; 8]),
        (-1, 1, [65535, 65535, 0, 0, 0, 0, 0, 0]),
    ];
    for (number, copies, row) in cases {
        assert_eq!(rt; shown(&CheckMark, number, copies), Some(row));
    }
    assert_eq!(rt; CheckMark.read_back(&[1, 4464, 9, 9, 9, 9, 9, 9]), 70000);
}

#[test]
fn sums(rt: HostRuntime) {
    let sum = Sum;
    let top = sum.worth(2147483647, 1);
    let bottom = sum.worth(2147483647, -1);
    assert_eq!(rt; sum.show(top), Some([2147483647, 0, 0, 0, 0, 0, 0, 0]));
    assert_eq!(rt; sum.show(sum.plus(top, 1)), None);
    assert_eq!(rt; sum.show(bottom), Some([-2147483647, 0, 0, 0, 0, 0, 0, 0]));
    assert_eq!(rt; sum.show(sum.minus(sum.plus(top, 1))), None);
    assert_eq!(rt; sum.plus(sum.worth(7, 3), sum.worth(7, -2)), 7);
    assert_eq!(rt; sum.read_back(&[-12, 1, 2, 3, 4, 5, 6, 7]), -12);
}

#[test]
fn heads(rt: HostRuntime) {
    assert_eq!(rt; HeadCount.column_count(), 0);
    assert_eq!(rt; shown(&HeadCount, 9, 4), Some([0; 8]));
}

// Copies that are taken cancel as well, and the smallest number's pattern has the highest bit alone.
#[test]
fn marks_taken_and_of_the_smallest(rt: HostRuntime) {
    assert_eq!(rt; shown(&CheckMark, 5, -2), Some([0; 8]));
    assert_eq!(rt;
        shown(&CheckMark, -2147483648, 1),
        Some([32768, 0, 0, 0, 0, 0, 0, 0])
    );
}

#[test]
fn sums_of_the_smallest_and_past_64_bits(rt: HostRuntime) {
    assert_eq!(rt; shown(&Sum, -2147483648, 1), None);
    assert_eq!(rt; Sum.worth(4, 4611686018427387905), 4);
}

// Past 2^63 - 1 a sum goes on from -2^63; what fits comes back from its row.
#[test]
fn wrapped_and_read_again(rt: HostRuntime) {
    assert_eq!(rt; Sum.plus(9223372036854775807, 1), -9223372036854775808);
    assert_eq!(rt; read_again(&Sum, -2147483647), Some(-2147483647));
    assert_eq!(rt; read_again(&Sum, 2147483648), None);
    assert_eq!(rt; read_again(&CheckMark, 4294967295), Some(4294967295));
}
