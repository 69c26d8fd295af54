ghost use Rattle.measure.specs.HeadCount.{any_head, head_count};
ghost use Rattle.std.proofs.Common.{rules};

use crate::measure::{LawfulThroughout, Measure};
use bag::row::Row;

// One value, and nothing to show: the copies that a total shows of each group say it all.
#[derive(Clone, Copy, Debug, PartialEq, Eq)]
pub struct HeadCount;

impl Measure for HeadCount {
    type Value = ();

    ghost ok = { any_head };

    ghost model = { head_count };

    ghost lawful = { Prim.search rules };

    fn zero(&self) {}

    fn plus(&self, a: (), b: ()) {}

    fn minus(&self, a: ()) {}

    fn worth(&self, number: i32, copies: i64) {}

    fn column_count(&self) -> usize {
        0
    }

    fn show(&self, value: ()) -> Option<Row> {
        Some([0; 8])
    }

    fn read_back(&self, columns: &Row) {}
}

impl LawfulThroughout for HeadCount {
    fn held(&self, value: ()) {}
}
