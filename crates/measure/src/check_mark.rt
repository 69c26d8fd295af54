ghost use Rattle.std.specs.Prelude.{◌≡◌};
ghost use Rattle.measure.specs.CheckMark.{IsMark, check_mark, low_half};
ghost use Rattle.measure.specs.CheckMarkLaws.{check_mark_laws};

use crate::measure::{LawfulThroughout, Measure};
use bag::row::Row;

// The exclusive or of the numbers' patterns over all copies: two copies cancel, so only whether copies are odd counts.
#[derive(Clone, Copy, Debug, PartialEq, Eq)]
pub struct CheckMark;

impl Measure for CheckMark {
    type Value = u32;

    ghost ok = { IsMark };

    ghost model = { check_mark };

    ghost lawful = { check_mark_laws };

    fn zero(&self) -> u32 {
        0
    }

    fn plus(&self, a: u32, b: u32) -> u32 {
        a ^ b
    }

    // What is joined twice is gone, so each value is its own inverse.
    fn minus(&self, a: u32) -> u32 {
        a
    }

    fn worth(&self, number: i32, copies: i64) -> u32 {
        if copies % 2 != 0 {
            number.cast_unsigned()
        } else {
            0
        }
    }

    fn column_count(&self) -> usize {
        2
    }

    // Halves of 16 bits, since a column of 32 could be -2,147,483,648.
    fn show(&self, value: u32) -> Option<Row> {
        let upper = (value / 65536) as i32;
        let lower = (value % 65536) as i32;
        Some([upper, lower, 0, 0, 0, 0, 0, 0])
    }

    fn read_back(&self, columns: &Row) -> u32 {
        let [upper, lower, ..] = *columns;
        low_half(upper) * 65536 + low_half(lower)
    }
}

impl LawfulThroughout for CheckMark {
    fn held(&self, value: u32) -> u32 {
        value
    }
}

// The lower 16 bits of a column.
fn low_half(column: i32) -> u32
    ensures { result ≡ low_half column }
{
    column.cast_unsigned() % 65536
}
