ghost use Rattle.bag.specs.Order.{stock_line_order, change_line_order};
ghost use Rattle.bag.specs.Lines.{blank_stock_line, blank_change_line};
ghost use Rattle.bag.proofs.KeyOrder.{stock_lines_are_ordered_by_key, change_lines_are_ordered_by_key};
ghost use Rattle.table.specs.Ordered.{lawful_from_keys};

use crate::entry::Entry;
use bag::lines::{ChangeLine, StockLine};
use std::cmp::Ordering;

// Lines of a store of bags, by shelf and row.
impl Entry for StockLine {
    ghost blank = { blank_stock_line };

    ghost order = { stock_line_order };

    ghost lawful = { lawful_from_keys stock_lines_are_ordered_by_key };

    fn blank() -> StockLine {
        StockLine::blank()
    }

    fn compare(&self, other: &StockLine) -> Ordering {
        StockLine::compare_keys(self, other)
    }
}

// Lines of a sheet, by node and row.
impl Entry for ChangeLine {
    ghost blank = { blank_change_line };

    ghost order = { change_line_order };

    ghost lawful = { lawful_from_keys change_lines_are_ordered_by_key };

    fn blank() -> ChangeLine {
        ChangeLine::blank()
    }

    fn compare(&self, other: &ChangeLine) -> Ordering {
        ChangeLine::compare_keys(self, other)
    }
}
