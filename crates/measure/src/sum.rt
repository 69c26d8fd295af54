ghost use Rattle.std.specs.Prelude.{FitsSigned};
ghost use Rattle.std.specs.Int.{w64};
ghost use Rattle.measure.specs.Sum.{sum};
ghost use Rattle.measure.specs.SumLaws.{sum_laws};

use crate::measure::{LawfulThroughout, Measure};
use bag::row::Row;

// The sum of the numbers over all copies, modulo 2^64.
#[derive(Clone, Copy, Debug, PartialEq, Eq)]
pub struct Sum;

#[tactic(auto, using(std::proofs::lemmas::Int::wraps))]
impl Measure for Sum {
    type Value = i64;

    ghost ok = { FitsSigned w64 };

    ghost model = { sum };

    ghost lawful = { sum_laws };

    fn zero(&self) -> i64 {
        0
    }

    fn plus(&self, a: i64, b: i64) -> i64 {
        a.wrapping_add(b)
    }

    fn minus(&self, a: i64) -> i64 {
        a.wrapping_neg()
    }

    fn worth(&self, number: i32, copies: i64) -> i64 {
        i64::from(number).wrapping_mul(copies)
    }

    fn column_count(&self) -> usize {
        1
    }

    // -2,147,483,648 is a column that no total shows, so it does not fit.
    fn show(&self, value: i64) -> Option<Row> {
        if (-2147483647..=2147483647).contains(&value) {
            Some([value as i32, 0, 0, 0, 0, 0, 0, 0])
        } else {
            None
        }
    }

    fn read_back(&self, columns: &Row) -> i64 {
        i64::from(columns[0])
    }
}

impl LawfulThroughout for Sum {
    fn held(&self, value: i64) -> i64 {
        value
    }
}
