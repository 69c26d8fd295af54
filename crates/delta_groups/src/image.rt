ghost use Rattle.std.specs.Prelude.{◌≡◌};
ghost use Rattle.bag.specs.Columns.{column_of, columns_at, listed};

use bag::row::Row;
use measure::columns::column_of;

// Column `place` of the row that `image` makes.
fn column_of_image(row: &Row, columns: &[u8], place: usize) -> i32
    ensures { result ≡ column_of (columns_at columns.now row.now) place }
{
    columns
        .get(place)
        .map_or(0, |column| column_of(row, *column as usize))
}

// The row of the listed columns, as far as there is room, with 0 behind them.
pub fn image(row: &Row, columns: &[u8]) -> Row
    ensures { result ≡ listed columns.now row.now }
{
    std::array::from_fn(|place| column_of_image(row, columns, place))
}
