ghost use Rattle.std.specs.Prelude.{◌≡◌, ◌+◌, ◌*◌, ◌<◌, ◌≤◌, length};
ghost use Rattle.byte_stock.specs.ByteLines.{line_in, line_bytes, laid, freed_bytes};

use bag::lines::StockLine;
use std::array::from_fn;

// How many bytes a line takes: one for its shelf, four for each of its eight columns, and two for its count.
pub(crate) const LINE_LEN: usize = 35;

const COLUMN_LEN: usize = 4;

// The byte of a line that its shelf stands in.
pub(crate) const SHELF_AT: usize = 0;

const COLUMNS_AT: usize = 1;

const COUNT_AT: usize = 33;

// The line that the bytes hold.
pub(crate) fn read_line(bytes: &[u8; LINE_LEN]) -> StockLine
    ensures { result ≡ line_in bytes.now }
{
    let (columns, count) = bytes[COLUMNS_AT..].as_chunks::<COLUMN_LEN>();
    let row = from_fn(|k| i32::from_be_bytes(columns[k]));
    StockLine {
        shelf: bytes[SHELF_AT],
        row,
        count: u16::from_be_bytes([count[0], count[1]]),
    }
}

// A line as bytes.
pub(crate) fn line_bytes(line: &StockLine) -> [u8; LINE_LEN]
    ensures { result ≡ line_bytes line.now }
{
    let mut bytes = [0; LINE_LEN];
    bytes[SHELF_AT] = line.shelf;
    // by places: `as_chunks_mut` does not promise what the slice ends as
    for (k, column) in line.row.iter().enumerate() {
        let at = COLUMNS_AT + COLUMN_LEN * k;
        bytes[at..at + COLUMN_LEN].copy_from_slice(&column.to_be_bytes());
    }
    bytes[COUNT_AT..].copy_from_slice(&line.count.to_be_bytes());
    bytes
}

// Writes the bytes of one line at a place among the lines.
pub(crate) fn write_line(bytes: &mut [u8], place: usize, line: &[u8; LINE_LEN])
    requires { 35 * place + 35 ≤ length bytes.old }
    ensures { bytes.new ≡ laid bytes.old (35 * place) line.now }
{
    let at = LINE_LEN * place;
    bytes[at..at + LINE_LEN].copy_from_slice(line);
}

// Puts the last of `used` lines in the place of the line at `place`, and blanks the bytes that the last line leaves.
pub(crate) fn free_line(bytes: &mut [u8], place: usize, used: usize)
    requires { (place < used) × (35 * used ≤ length bytes.old) }
    ensures { bytes.new ≡ freed_bytes bytes.old place used }
{
    let (lines, _) = bytes.as_chunks::<LINE_LEN>();
    let last = read_line(&lines[used - 1]);
    write_line(bytes, place, &line_bytes(&last));
    write_line(bytes, used - 1, &[0; LINE_LEN]);
}
