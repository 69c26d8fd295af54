ghost use Rattle.std.specs.Prelude.{◌≡◌, take};

use bag::condition::{Operand, Relation};

// A column of a left row that must equal a column of a right row.
#[derive(Clone, Copy, PartialEq, Eq, Debug)]
pub struct ColumnPair {
    pub left: u8,
    pub right: u8,
}

// The first `count` places count, the others are blank.
// No invariant binds `count`: every program may make and change a list, and an invariant would ask more of it than its types do.
#[derive(Clone, Copy, PartialEq, Eq, Debug)]
pub struct Listed<T, const N: usize> {
    pub count: u8,
    pub places: [T; N],
}

impl<T, const N: usize> Listed<T, N> {
    // The places that count.
    pub fn as_slice(&self) -> &[T]
        ensures { result.now ≡ take self.now.count self.now.places }
    {
        let places = self.places.as_slice();
        &places[..(self.count as usize).min(places.len())]
    }
}

// One node of a plan. `child`, `left` and `right` are numbers of lower nodes.
#[derive(Clone, Copy, PartialEq, Eq, Debug)]
pub enum Node {
    // A table that messages fill.
    Base {
        width: u8,
    },
    // Selection: the child's rows whose column stands in the relation to a number or a column.
    Keep {
        child: u8,
        column: u8,
        relation: Relation,
        operand: Operand,
    },
    // Bag projection: the listed columns of each of the child's rows.
    Pick {
        child: u8,
        columns: Listed<u8, 8>,
    },
    // Equi-join: a row of the left followed by a row of the right where the pairs are equal.
    Pair {
        left: u8,
        right: u8,
        pairs: Listed<ColumnPair, 4>,
    },
    // Bag union.
    Both {
        left: u8,
        right: u8,
    },
    // Bag difference.
    Less {
        left: u8,
        right: u8,
    },
    // Group by the listed columns of the child: their values, the copies, and the measure of the column `measured`.
    Total {
        child: u8,
        measured: u8,
        columns: Listed<u8, 8>,
    },
}
