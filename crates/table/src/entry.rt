ghost use Rattle.std.specs.Prelude.{◌≡◌};
ghost use Rattle.std.specs.declared.cmp.Ordering.{Ordering};
ghost use Rattle.table.specs.Order.{Lawful};

use std::cmp::Ordering;

// A kind of entry. Each entry has a key, which is the part of it that `compare` looks at, and the keys have a total order.
// It is not std's `Ord`, which would have to call entries with equal keys equal: a table replaces one by the other.
pub trait Entry: Copy {
    // what a place holds that no entry uses
    ghost blank: { Self };

    // how the key of the first stands to the key of the second
    ghost order: { Self → Self → Ordering };

    fn blank() -> Self
        ensures { result ≡ blank };

    fn compare(&self, other: &Self) -> Ordering
        ensures { result ≡ order self.now other.now };

    ghost lawful: { Lawful order };
}
