ghost use Rattle.bag.specs.Columns.{IsRow};

use bag::row::Row;

// That a row is eight signed 32-bit numbers is learnt of each column where it is read; reading them all says it of the row.
pub fn read_columns(row: &Row)
    ensures { IsRow row.now }
{
    for column in row {
        let _number = *column;
    }
}
