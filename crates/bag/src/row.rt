ghost use Rattle.std.specs.Prelude.{◌≡◌};
ghost use Rattle.bag.specs.Order.{row_order};

use std::cmp::Ordering;

// A row: eight columns, of which a node of width w uses the first w and keeps 0 in the others.
pub type Row = [i32; 8];

// Which of two rows comes first: column 0 decides, then column 1, and so on.
#[tactic(auto, unfolding(crate::specs::Order::row_order))]
pub fn compare_rows(a: &Row, b: &Row) -> Ordering
    ensures { result ≡ row_order a.now b.now }
{
    a.cmp(b)
}
