ghost use Rattle.measure.specs.SideBySide.{OkPair, side_by_side};
ghost use Rattle.measure.specs.SideBySideLaws.{side_by_side_laws};

use crate::columns::{columns_from, followed_by};
use crate::measure::{LawfulThroughout, Measure};
use bag::row::Row;

// Two measures of the same numbers; either may itself be side by side.
#[derive(Clone, Copy, Debug, PartialEq, Eq)]
pub struct SideBySide<A, B> {
    pub first: A,
    pub second: B,
}

impl<A: Measure, B: Measure> Measure for SideBySide<A, B> {
    type Value = (A::Value, B::Value);

    ghost ok = { OkPair A.Measure.ok B.Measure.ok };

    ghost model = { side_by_side A.Measure.model B.Measure.model };

    ghost lawful = { side_by_side_laws A.Measure.model B.Measure.model A.Measure.lawful B.Measure.lawful };

    fn zero(&self) -> Self::Value {
        (self.first.zero(), self.second.zero())
    }

    fn plus(&self, a: Self::Value, b: Self::Value) -> Self::Value {
        (self.first.plus(a.0, b.0), self.second.plus(a.1, b.1))
    }

    fn minus(&self, a: Self::Value) -> Self::Value {
        (self.first.minus(a.0), self.second.minus(a.1))
    }

    fn worth(&self, number: i32, copies: i64) -> Self::Value {
        (
            self.first.worth(number, copies),
            self.second.worth(number, copies),
        )
    }

    fn column_count(&self) -> usize {
        (self.first.column_count() + self.second.column_count()).min(8)
    }

    // Past eight columns the front of them.
    fn show(&self, value: Self::Value) -> Option<Row> {
        let first = self.first.show(value.0)?;
        let second = self.second.show(value.1)?;
        Some(followed_by(&first, self.first.column_count(), &second))
    }

    fn read_back(&self, columns: &Row) -> Self::Value {
        let rest = columns_from(columns, self.first.column_count());
        (self.first.read_back(columns), self.second.read_back(&rest))
    }
}

impl<A: LawfulThroughout, B: LawfulThroughout> LawfulThroughout for SideBySide<A, B> {
    fn held(&self, value: Self::Value) -> Self::Value {
        (self.first.held(value.0), self.second.held(value.1))
    }
}
