use crate::negatives::Negatives;
use measure::check_mark::CheckMark;
use measure::head_count::HeadCount;
use measure::measure::Measure;
use measure::side_by_side::SideBySide;
use measure::sum::Sum;
use std::test::Fail;

fn beside<A, B>(first: A, second: B) -> SideBySide<A, B> {
    SideBySide { first, second }
}

#[test]
fn inside_another(rt: HostRuntime) -> Result<(), Fail> {
    let measure = beside(HeadCount, beside(CheckMark, Sum));
    let value = measure.worth(70000, 3);
    assert_eq!(rt; measure.column_count(), 3);
    let row = measure.show(value).ok_or("fits")?;
    assert_eq!(rt; row, [1, 4464, 210000, 0, 0, 0, 0, 0]);
    let (_, (mark, sum)) = measure.read_back(&row);
    assert_eq!(rt; mark, 70000);
    assert_eq!(rt; sum, 210000);
    assert_eq!(rt; measure.show(measure.worth(2147483647, 2)), None);
    Ok(())
}

// Nine columns: the pair says eight, and shows the front of the nine.
#[test]
fn past_eight_columns(rt: HostRuntime) -> Result<(), Fail> {
    let two_marks = beside(CheckMark, CheckMark);
    let marks = beside(two_marks, two_marks);
    let measure = beside(Sum, marks);
    assert_eq!(rt; marks.column_count(), 8);
    assert_eq!(rt; measure.column_count(), 8);
    let row = measure.show(measure.worth(70000, 1)).ok_or("fits")?;
    assert_eq!(rt; row, [70000, 1, 4464, 1, 4464, 1, 4464, 1]);
    let (sum, (front, (third, fourth))) = measure.read_back(&row);
    assert_eq!(rt; sum, 70000);
    assert_eq!(rt; front, (70000, 70000));
    assert_eq!(rt; third, 70000);
    assert_eq!(rt; fourth, 65536);
    Ok(())
}

// A measure of one's own beside one of the crate's: 3 copies of -7 put, and 1 copy of 9.
#[test]
fn with_a_measure_of_ones_own(rt: HostRuntime) {
    let measure = beside(Negatives, Sum);
    let value = measure.plus(measure.worth(-7, 3), measure.worth(9, 1));
    assert_eq!(rt; measure.show(value), Some([3, -12, 0, 0, 0, 0, 0, 0]));
    let gone = measure.plus(value, measure.minus(value));
    assert_eq!(rt; measure.show(gone), Some([0; 8]));
}
