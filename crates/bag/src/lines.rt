ghost use Rattle.std.specs.Prelude.{◌≡◌};
ghost use Rattle.bag.specs.Order.{stock_line_order, change_line_order};
ghost use Rattle.bag.specs.Lines.{blank_stock_line, blank_change_line};

use crate::row::Row;
use std::cmp::Ordering;

// The two kinds of line stay two types, and not one over a kind of number: their fields' names say what each number means.

// A line of a store of bags: how many copies of a row lie on a shelf.
#[derive(Clone, Copy, PartialEq, Eq, Debug)]
pub struct StockLine {
    pub shelf: u8,
    pub row: Row,
    pub count: u16,
}

// A line of a sheet: how many copies of a row a node gains, or loses where the number is negative.
#[derive(Clone, Copy, PartialEq, Eq, Debug)]
pub struct ChangeLine {
    pub node: u8,
    pub row: Row,
    pub change: i32,
}

impl StockLine {
    // What a place holds that no line uses.
    pub fn blank() -> StockLine
        ensures { result ≡ blank_stock_line }
    {
        StockLine {
            shelf: 0,
            row: [0; 8],
            count: 0,
        }
    }

    // Which of two lines comes first: by shelf, then by row, whatever their counts.
    pub fn compare_keys(&self, other: &StockLine) -> Ordering
        ensures { result ≡ stock_line_order self.now other.now }
    {
        (self.shelf, &self.row).cmp(&(other.shelf, &other.row))
    }
}

impl ChangeLine {
    // What a place holds that no line uses.
    pub fn blank() -> ChangeLine
        ensures { result ≡ blank_change_line }
    {
        ChangeLine {
            node: 0,
            row: [0; 8],
            change: 0,
        }
    }

    // Which of two lines comes first: by node, then by row, whatever their changes.
    pub fn compare_keys(&self, other: &ChangeLine) -> Ordering
        ensures { result ≡ change_line_order self.now other.now }
    {
        (self.node, &self.row).cmp(&(other.node, &other.row))
    }
}
