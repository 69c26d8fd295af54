ghost use Rattle.std.specs.Prelude.{FitsSigned};
ghost use Rattle.std.specs.Int.{w64};
ghost use Rattle.measure_tests.specs.Negatives.{negatives};
ghost use Rattle.measure_tests.specs.NegativesLaws.{negatives_laws};

use bag::row::Row;
use measure::measure::Measure;
use measure::sum::Sum;

// How many copies have a number below 0. Its values are those of a sum, so all but the worth is the sum's.
#[derive(Clone, Copy, Debug, PartialEq, Eq)]
pub struct Negatives;

impl Measure for Negatives {
    type Value = i64;

    ghost ok = { FitsSigned w64 };

    ghost model = { negatives };

    ghost lawful = { negatives_laws };

    fn zero(&self) -> i64 {
        Sum.zero()
    }

    fn plus(&self, a: i64, b: i64) -> i64 {
        Sum.plus(a, b)
    }

    fn minus(&self, a: i64) -> i64 {
        Sum.minus(a)
    }

    fn worth(&self, number: i32, copies: i64) -> i64 {
        if number < 0 { copies } else { 0 }
    }

    fn column_count(&self) -> usize {
        1
    }

    fn show(&self, value: i64) -> Option<Row> {
        Sum.show(value)
    }

    fn read_back(&self, columns: &Row) -> i64 {
        Sum.read_back(columns)
    }
}
