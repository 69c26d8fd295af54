ghost use Rattle.std.specs.Prelude.{◌≡◌, ◌<◌, length, map, IfSome};
ghost use Rattle.std.specs.Option.{option_map_or};
ghost use Rattle.byte_stock.specs.ByteLines.{line_in};
ghost use Rattle.byte_stock.specs.ByteStored.{has_key, comes_after, place_of, nearer, line_after};

use crate::byte_line::{LINE_LEN, SHELF_AT, read_line};
use bag::lines::StockLine;
use bag::row::{Row, compare_rows};
use std::cmp::min_by;

fn has_key(line: &StockLine, shelf: u8, row: &Row) -> bool
    ensures { result ≡ has_key shelf row.now line.now }
{
    line.shelf == shelf && line.row == *row
}

fn comes_after(line: &StockLine, shelf: u8, row: &Row) -> bool
    ensures { result ≡ comes_after shelf row.now line.now }
{
    line.shelf == shelf && compare_rows(row, &line.row).is_lt()
}

// The place of the line of a row on a shelf.
pub(crate) fn find(lines: &[[u8; LINE_LEN]], shelf: u8, row: &Row) -> Option<usize>
    ensures place { result ≡ place_of shelf row.now (map line_in lines.now) }
    ensures inside { IfSome result (λ i. i < length lines.now) }
{
    lines
        .iter()
        .position(|line| has_key(&read_line(line), shelf, row))
}

// Of the nearest line so far, if there is one, and the next line, the one with the smaller row.
fn nearer_yet(best: Option<StockLine>, line: StockLine) -> StockLine
    ensures { result ≡ option_map_or (λ l. nearer l line) best line }
{
    match best {
        Some(best) => min_by(best, line, |a, b| compare_rows(&a.row, &b.row)),
        None => line,
    }
}

// The line with the smallest row greater than `row` on a shelf.
pub(crate) fn find_next(lines: &[[u8; LINE_LEN]], shelf: u8, row: &Row) -> Option<StockLine>
    ensures { result ≡ line_after shelf row.now (map line_in lines.now) }
{
    lines
        .iter()
        // the shelf first, so that of lines of other shelves no more than one byte is read
        .filter(|line| line[SHELF_AT] == shelf && comes_after(&read_line(line), shelf, row))
        .map(|line| read_line(line))
        // the iterator's own `min_by` looks for its first item by another loop, which is slower
        .fold(None, |best, line| Some(nearer_yet(best, line)))
}
