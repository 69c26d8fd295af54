ghost use Rattle.std.specs.Prelude.{◌≡◌};
ghost use Rattle.std.specs.Iterator.{YieldsFirst, item_count};
ghost use Rattle.delta_rows.specs.Merges.{left_turn, right_turn, both_turn, turns};

use bag::lines::ChangeLine;
use bag::row::{Row, compare_rows};
use std::cmp::Ordering;

// A row of two changes: by how much either changes it, 0 if it has no line of it.
#[derive(Clone, Copy, PartialEq, Eq, Debug)]
pub struct Turn {
    pub row: Row,
    pub left: i32,
    pub right: i32,
}

// Goes over two changes at once, row by row; the rows of either ascend.
#[derive(Drop)]
pub struct Merge<'a> {
    // the lines of either that are left
    left: &'a [ChangeLine],
    right: &'a [ChangeLine],
}

impl Turn {
    fn of_left(line: &ChangeLine) -> Turn
        ensures { result ≡ left_turn line.now }
    {
        Turn {
            row: line.row,
            left: line.change,
            right: 0,
        }
    }

    fn of_right(line: &ChangeLine) -> Turn
        ensures { result ≡ right_turn line.now }
    {
        Turn {
            row: line.row,
            left: 0,
            right: line.change,
        }
    }

    fn of_both(left: &ChangeLine, right: &ChangeLine) -> Turn
        ensures { result ≡ both_turn left.now right.now }
    {
        Turn {
            row: left.row,
            left: left.change,
            right: right.change,
        }
    }
}

impl<'a> Merge<'a> {
    pub fn new(left: &'a [ChangeLine], right: &'a [ChangeLine]) -> Merge<'a>
        ensures left { result.left.now ≡ left.now }
        ensures right { result.right.now ≡ right.now }
    {
        Merge { left, right }
    }
}

impl<'a> Iterator for Merge<'a> {
    type Item = Turn;

    ghost next_gives = { YieldsFirst (λ m. turns m.left.now m.right.now) };

    ghost remaining = { item_count (λ m. turns m.left.now m.right.now) };

    fn next(&mut self) -> Option<Turn> {
        let (turn, left, right) = match (self.left.split_first(), self.right.split_first()) {
            (None, None) => return None,
            (Some((l, left)), None) => (Turn::of_left(l), left, self.right),
            (None, Some((r, right))) => (Turn::of_right(r), self.left, right),
            (Some((l, left)), Some((r, right))) => match compare_rows(&l.row, &r.row) {
                Ordering::Less => (Turn::of_left(l), left, self.right),
                Ordering::Equal => (Turn::of_both(l, r), left, right),
                Ordering::Greater => (Turn::of_right(r), self.left, right),
            },
        };
        *self = Merge { left, right };
        Some(turn)
    }
}
