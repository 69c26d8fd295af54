ghost use Rattle.std.specs.Prelude.{◌≡◌, drop};
ghost use Rattle.bag.specs.Columns.{column_of, padded, followed};

use bag::row::Row;

// Column j, and 0 past the eighth.
pub fn column_of(row: &Row, j: usize) -> i32
    ensures { result ≡ column_of row.now j }
{
    row.get(j).copied().unwrap_or(0)
}

// The first `width` columns of `front`, then the columns of `behind` as far as there is room.
pub fn followed_by(front: &Row, width: usize, behind: &Row) -> Row
    ensures { result ≡ followed width front.now behind.now }
{
    let kept = width.min(8);
    let mut row = *front;
    row[kept..].copy_from_slice(&behind[..8 - kept]);
    row
}

// The columns of a row from `start` on, and 0 behind them.
pub fn columns_from(row: &Row, start: usize) -> Row
    ensures { result ≡ padded (drop start row.now) }
{
    let skipped = start.min(8);
    let mut rest = [0; 8];
    rest[..8 - skipped].copy_from_slice(&row[skipped..]);
    rest
}
